//! Laws on made texts.
ghost use Rattle.trial_text.specs.Reading.{IsMadeRead};

use pla_reader::laws::plain_reading;

/// The text that a number makes is read as a PLA of six inputs and sixteen outputs.
pub fn made_reading()
    ensures { IsMadeRead }
{
    plain_reading();
}
