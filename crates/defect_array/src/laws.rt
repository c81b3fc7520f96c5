//! Laws on array texts.
ghost use Rattle.defect_array.specs.Reading.{IsReadOneWay, IsRefusedOneWay, IsReadOrRefused, IsNeverBoth};

/// Each text is read or refused, never both, and in one way.
pub fn read_or_refused()
    ensures one_reading { IsReadOneWay }
    ensures one_refusal { IsRefusedOneWay }
    ensures either { IsReadOrRefused }
    ensures never_both { IsNeverBoth }
{}
