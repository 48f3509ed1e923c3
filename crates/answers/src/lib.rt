//! Answers orders: the checks in their order, and then the order done.
#![tactic(auto)]

ghost use Rattle.std.specs.Prelude.{◌≡◌, length, Err};
ghost use Rattle.scale.specs.Range.{place_of};
ghost use Rattle.answers.specs.Reply.{reply, said, written};

use scale::tuning::{RangeError, Tuning};
use wire::answer::{Answer, Refusal, Refused};
use wire::order::{Order, RawTuning};

#[cfg(test)]
mod tests;

/// How many bytes an answer is lent.
pub const ROOM: usize = 64;

/// Answers the order: a refusal's bytes are written to the front of `out`, if that has room; what passes the checks is handed on.
// That a reply is the one to these bytes is said of each function that hands one on: no struct holds both.
pub fn answer(order: &[u8], out: &mut [u8]) -> Result<Order<Tuning>, Refused>
    ensures value { said result ≡ reply order.now (length out.old) }
    ensures after { out.new ≡ written (reply order.now (length out.old)) out.old }
{
    let reply = checked(order, out.len());
    if let Err(refused) = reply {
        refuse(refused, out);
    }
    reply
}

// The checks, in their order, each by `let .. else` where its refusal is known.
fn checked(bytes: &[u8], room: usize) -> Result<Order<Tuning>, Refused>
    ensures { said result ≡ reply bytes.now room }
{
    let Ok(order) = Order::try_from(bytes) else {
        return Err(Refusal::Unreadable.at(Order::misfit(bytes)));
    };
    let RawTuning {
        octave,
        interval,
        notes,
    } = order.tuning();
    let tuning = Tuning::new(octave, interval, notes).map_err(out_of_range)?;
    let Some(_) = room.checked_sub(ROOM) else {
        return Err(Refusal::NoRoom.at(0));
    };
    Ok(order.asked_of(tuning))
}

// The refusal of a tuning whose first number out of range is this one. Not `From`: neither type is of this crate.
fn out_of_range(number: RangeError) -> Refused
    ensures { result ≡ record { refusal = Refusal.OutOfRange; place = place_of number } }
{
    Refusal::OutOfRange.at(number.place())
}

// Writes a refusal, if there is room for an answer.
fn refuse(refused: Refused, out: &mut [u8])
    ensures { out.new ≡ written (Err refused) out.old }
{
    if out.len() >= ROOM {
        let _ = Answer::Refused(refused).write(out);
    }
}
