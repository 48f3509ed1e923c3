//! Products and remainders, exact for all numbers: u32 in and out, and u64 for products. What is divided by can't be 0.
#![tactic(auto)]

ghost use Rattle.std.specs.Prelude.{◌≡◌, ◌*◌};
// The library's word for the number that a `NonZeroU32` is.
ghost use Rattle.std.specs.NonZero.{non_zero_u32_get};
ghost use Rattle.scale.specs.Notes.{note};
ghost use Rattle.scale.specs.Quotients.{shortfall};
ghost use Rattle.scale.specs.Range.{as_tuning};
ghost use Rattle.modular.specs.Divisions.{product_divided, product_divided_up};

use scale::tuning::Tuning;
use std::num::NonZeroU32;

#[cfg(test)]
mod tests;

/// The height of note k, also where the tuning has no note k.
pub fn height(tuning: Tuning, k: u32) -> u32
    ensures { result ≡ note (as_tuning tuning) k }
{
    let units = product(k, tuning.interval());
    (units % u64::from(tuning.octave())) as u32
}

/// A quotient, and the remainder that is left.
#[derive(Clone, Copy, Debug, PartialEq, Eq)]
pub struct Division {
    pub quotient: u32,
    pub remainder: u32,
}

/// a times b divided by a third number; nothing if the quotient is 2^32 or more.
pub fn divide_product(a: u32, b: u32, by: NonZeroU32) -> Option<Division>
    ensures { result ≡ product_divided a b (non_zero_u32_get by) }
{
    let product = product(a, b);
    let by = u64::from(by.get());
    Some(Division {
        quotient: u32::try_from(product / by).ok()?,
        remainder: (product % by) as u32,
    })
}

/// a times b divided by a third number, rounded up; nothing if that is 2^32 or more. For w octaves of N units and the interval g: the number of the first
/// note that is w octaves up or more.
#[tactic(auto, using(crate::proofs::Ceilings::ceiling_is))]
pub fn divide_product_up(a: u32, b: u32, by: NonZeroU32) -> Option<u32>
    ensures { result ≡ product_divided_up a b (non_zero_u32_get by) }
{
    u32::try_from(product(a, b).div_ceil(u64::from(by.get()))).ok()
}

/// The least number of units that, added to these, makes a whole number of intervals.
pub fn shortfall(units: u32, interval: NonZeroU32) -> u32
    ensures { result ≡ shortfall units (non_zero_u32_get interval) }
{
    let interval = interval.get();
    match units % interval {
        0 => 0,
        remainder => interval - remainder,
    }
}

fn product(a: u32, b: u32) -> u64
    ensures { result ≡ a * b }
{
    u64::from(a) * u64::from(b)
}
