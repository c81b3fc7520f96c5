//! Laws on texts.
ghost use Rattle.pla_reader.specs.Answers.{IsReadOneWay, IsRefusedOneWay, IsEither, IsReadOrRefused, IsPlainRead};

/// A text is read as one value at most.
pub fn one_reading()
    ensures { IsReadOneWay }
{}

/// A text is refused in one way at most.
pub fn one_refusal()
    ensures { IsRefusedOneWay }
{}

/// No text is both read and refused.
pub fn read_or_refused()
    ensures { IsEither }
{}

/// Each text is read or refused.
pub fn some_reading()
    ensures { IsReadOrRefused }
{}

/// A plain text is read as what it means.
pub fn plain_reading()
    ensures { IsPlainRead }
{}
