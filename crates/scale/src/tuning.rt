//! Tunings whose numbers are in range.
ghost use Rattle.std.specs.Prelude.{◌≡◌, ◌<◌, ◌≤◌, ◌&&◌, if◌then◌else◌, Some, None, nat_le};

use thiserror::Error;

/// The units of the largest octave.
const LARGEST_OCTAVE: u32 = 1_000_000_000;

/// An octave of so many units, an interval of so many, and how many notes.
// It has no model, which would hide from callers what holds of each tuning.
#[derive(Clone, Copy, Debug, PartialEq, Eq)]
pub struct Tuning {
    pub octave: u32,
    pub interval: u32,
    pub notes: u32,
    ghost some_units: { 0 < octave },
    ghost few_units: { octave ≤ 1000000000 },
    ghost below_octave: { interval < octave },
    ghost some_notes: { 0 < notes },
    ghost few_notes: { notes ≤ octave },
}

/// Which of a tuning's numbers is the first out of range.
#[derive(Clone, Copy, Debug, PartialEq, Eq, Error)]
pub enum RangeError {
    #[error("the octave is not 1 to 1,000,000,000 units")]
    Octave = 0,
    #[error("the interval is not below the octave")]
    Interval = 1,
    #[error("there are not 1 to as many notes as the octave has units")]
    Notes = 2,
}

impl RangeError {
    ghost use Rattle.scale.specs.Range.{place_of};

    /// The place of the number among the three.
    // Not `From`: `u32::from` would not say that it is a place.
    pub fn place(self) -> u32
        ensures { result ≡ place_of self }
    {
        self as u32
    }
}

impl Tuning {
    ghost use Rattle.scale.specs.Range.{new_said, tuning_from};

    /// The tuning of these numbers, or which of them is the first out of range.
    // Three numbers and no struct: crates are in layers, and the struct that has them unchecked is not of a lower one.
    pub fn new(octave: u32, interval: u32, notes: u32) -> Result<Tuning, RangeError>
        ensures { new_said result ≡ tuning_from octave interval notes }
    {
        let Some(octave) = within(1, octave, LARGEST_OCTAVE) else {
            return Err(RangeError::Octave);
        };
        let Some(interval) = within(0, interval, octave - 1) else {
            return Err(RangeError::Interval);
        };
        let Some(notes) = within(1, notes, octave) else {
            return Err(RangeError::Notes);
        };
        Ok(Tuning {
            octave,
            interval,
            notes,
        })
    }

    /// The units of the octave.
    pub fn octave(self) -> u32
        ensures value { result ≡ self.octave }
        ensures some { 0 < result }
        ensures few { result ≤ 1000000000 }
    {
        self.octave
    }

    /// The units of the interval.
    pub fn interval(self) -> u32
        ensures value { result ≡ self.interval }
        ensures below { result < self.octave }
    {
        self.interval
    }

    /// How many notes there are.
    pub fn notes(self) -> u32
        ensures value { result ≡ self.notes }
        ensures some { 0 < result }
        ensures few { result ≤ self.octave }
    {
        self.notes
    }
}

// A number that is in range.
fn within(least: u32, number: u32, most: u32) -> Option<u32>
    ensures { result ≡ (if nat_le least number && nat_le number most then Some number else None) }
{
    (least..=most).contains(&number).then_some(number)
}
