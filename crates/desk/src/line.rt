//! The line that is printed for an order.
ghost use Rattle.std.specs.Prelude.{◌≡◌, Some};
ghost use Rattle.answers.specs.Reply.{reply, said};
ghost use Rattle.desk.specs.Lines.{line_text};

use answers::{ROOM, answer};
use scale::tuning::Tuning;
use std::fmt;
use wire::answer::Refused;
use wire::order::Order;

/// The line for a reply.
#[derive(Clone, Copy, Debug, PartialEq, Eq)]
pub struct Line(Result<Order<Tuning>, Refused>);

/// The line of the order that these bytes are.
// The reply is the one to these bytes, as in `answers`: no struct holds both.
impl From<&[u8]> for Line {
    ghost from_gives = { λ bytes line. said line.0 ≡ reply bytes.now 64 };

    fn from(bytes: &[u8]) -> Line {
        Line(answer(bytes, &mut [0; ROOM]))
    }
}

impl fmt::Display for Line {
    ghost output = { λ line. Some (line_text line.0) };

    fn fmt<W: fmt::Write>(&self, f: &mut fmt::Formatter<W>) -> fmt::Result {
        match &self.0 {
            Ok(_) => f.write_str("pending"),
            Err(Refused { refusal, place }) => {
                let number = u32::from(*refusal);
                write!(f, "refused {number} at {place}")
            }
        }
    }
}
