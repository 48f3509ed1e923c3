//! Generated scales: one interval over and over again. What they are, and what is promised of them, is in specs/.
#![tactic(auto)]

ghost use Rattle.std.specs.Prelude.{◌≡◌, ◌*◌};

pub mod laws;
pub mod rounds;
pub mod tuning;

/// How many cents so many semitones are.
pub fn semitones(n: u16) -> u64
    ensures { result ≡ 100 * n }
{
    100 * u64::from(n)
}
