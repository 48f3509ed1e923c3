//! Answers, and their bytes.
ghost use Rattle.std.specs.Prelude.{◌≡◌, ◌≤◌, length, if◌then◌else◌, Some, None};
ghost use Rattle.std.specs.Option.{ok_or};
ghost use Rattle.wire.specs.AnswerKinds.{kind_of, kind_number};
ghost use Rattle.wire.specs.Answers.{refusal_number, refusal_of, kind, count, pair_bytes, pairs_bytes, answer_bytes, has_room, pair_of, read_pairs, read_answer};
ghost use Rattle.wire.specs.Bytes.{over};

use super::bytes::Part;
use super::error::ReadError;
use thiserror::Error;

/// Why an order is refused, in the order of the checks.
#[derive(Clone, Copy, Debug, PartialEq, Eq, Error)]
pub enum Refusal {
    #[error("the order can't be read")]
    Unreadable = 1,
    #[error("a number of the tuning is out of range")]
    OutOfRange = 2,
    #[error("there is too little room for an answer")]
    NoRoom = 3,
    #[error("two of the tuning's notes have the same height")]
    NotAllDifferent = 4,
    #[error("there is no such note, place or number of notes")]
    NotThere = 5,
}

impl TryFrom<u32> for Refusal {
    type Error = ReadError;

    ghost try_from_gives = { λ number result. result ≡ ok_or (refusal_of number) (record {}) };

    fn try_from(number: u32) -> Result<Refusal, ReadError> {
        match number {
            1 => Ok(Refusal::Unreadable),
            2 => Ok(Refusal::OutOfRange),
            3 => Ok(Refusal::NoRoom),
            4 => Ok(Refusal::NotAllDifferent),
            5 => Ok(Refusal::NotThere),
            _ => Err(ReadError),
        }
    }
}

/// The number by which the refusal goes in an answer.
impl From<Refusal> for u32 {
    ghost from_gives = { λ refusal number. number ≡ refusal_number refusal };

    fn from(refusal: Refusal) -> u32 {
        refusal as u32
    }
}

impl Refusal {
    /// The refusal at a place.
    pub fn at(self, place: u32) -> Refused
        ensures { (result.refusal ≡ self) × (result.place ≡ place) }
    {
        Refused {
            refusal: self,
            place,
        }
    }
}

/// A refusal, and the place that it speaks of.
#[derive(Clone, Copy, Debug, PartialEq, Eq, Error)]
#[error("{refusal}, at {place}")]
pub struct Refused {
    pub refusal: Refusal,
    pub place: u32,
}

/// Two numbers that go together, as a note and a step.
#[derive(Clone, Copy, Debug, PartialEq, Eq)]
pub struct Pair {
    pub first: u32,
    pub second: u32,
}

impl Part for Pair {
    ghost size = { 8 };

    ghost bytes_of = { pair_bytes };

    ghost value_of = { pair_of };

    fn read(bytes: &[u8]) -> Pair {
        Pair {
            first: u32::read(&bytes[0..4]),
            second: u32::read(&bytes[4..8]),
        }
    }

    fn put(self, out: &mut [u8]) {
        self.first.put(&mut out[0..4]);
        self.second.put(&mut out[4..8]);
    }
}

/// Up to three pairs.
// Not an `ArrayVec`, which isn't `Copy`; and filling one would be a loop, whose passes are rounds of an order.
#[derive(Clone, Copy, Debug, PartialEq, Eq)]
pub enum Pairs {
    Zero,
    One(Pair),
    Two(Pair, Pair),
    Three(Pair, Pair, Pair),
}

impl Pairs {
    /// How many pairs there are.
    pub fn count(self) -> u32
        ensures { result ≡ count self }
    {
        match self {
            Pairs::Zero => 0,
            Pairs::One(_) => 1,
            Pairs::Two(_, _) => 2,
            Pairs::Three(_, _, _) => 3,
        }
    }

    /// The pairs of an answer, if there are as many as it says.
    fn read(bytes: &[u8]) -> Option<Pairs>
        ensures { result ≡ read_pairs bytes.now }
    {
        if bytes.len() < 5 {
            return None;
        }
        match (u32::read(&bytes[1..5]), bytes.len()) {
            (0, 5) => Some(Pairs::Zero),
            (1, 13) => Some(Pairs::One(Pair::read(&bytes[5..13]))),
            (2, 21) => Some(Pairs::Two(Pair::read(&bytes[5..13]), Pair::read(&bytes[13..21]))),
            (3, 29) => Some(Pairs::Three(
                Pair::read(&bytes[5..13]),
                Pair::read(&bytes[13..21]),
                Pair::read(&bytes[21..29]),
            )),
            _ => None,
        }
    }

    /// Writes the pairs to the front.
    fn put(self, out: &mut [u8])
        requires { length (pairs_bytes self) ≤ length out.old }
        ensures { out.new ≡ over (pairs_bytes self) out.old }
    {
        match self {
            Pairs::Zero => {}
            Pairs::One(p) => p.put(&mut out[0..8]),
            Pairs::Two(p, q) => {
                p.put(&mut out[0..8]);
                q.put(&mut out[8..16]);
            }
            Pairs::Three(p, q, r) => {
                p.put(&mut out[0..8]);
                q.put(&mut out[8..16]);
                r.put(&mut out[16..24]);
            }
        }
    }
}

/// The kind of an answer, by the number that is its first byte.
#[derive(Clone, Copy, Debug, PartialEq, Eq)]
enum Kind {
    Refused = 0,
    Number = 1,
    Numbers = 2,
    Listed = 3,
}

impl TryFrom<u8> for Kind {
    type Error = ReadError;

    ghost try_from_gives = { λ byte result. result ≡ ok_or (kind_of byte) (record {}) };

    fn try_from(byte: u8) -> Result<Kind, ReadError> {
        match byte {
            0 => Ok(Kind::Refused),
            1 => Ok(Kind::Number),
            2 => Ok(Kind::Numbers),
            3 => Ok(Kind::Listed),
            _ => Err(ReadError),
        }
    }
}

impl From<Kind> for u8 {
    ghost from_gives = { λ kind byte. byte ≡ kind_number kind };

    fn from(kind: Kind) -> u8 {
        kind as u8
    }
}

/// What is answered to an order.
#[derive(Clone, Copy, Debug, PartialEq, Eq)]
pub enum Answer {
    Refused(Refused),
    Number(u32),
    Numbers(Pair),
    Listed(Pairs),
}

/// The answer that the bytes are.
impl TryFrom<&[u8]> for Answer {
    type Error = ReadError;

    ghost try_from_gives = { λ bytes result. result ≡ ok_or (read_answer bytes.now) (record {}) };

    fn try_from(bytes: &[u8]) -> Result<Answer, ReadError> {
        let kind = Kind::try_from(*bytes.first().ok_or(ReadError)?)?;
        match (kind, bytes.len()) {
            (Kind::Refused, 9) => {
                let refusal = Refusal::try_from(u32::read(&bytes[1..5]))?;
                let place = u32::read(&bytes[5..9]);
                Ok(Answer::Refused(refusal.at(place)))
            }
            (Kind::Number, 5) => Ok(Answer::Number(u32::read(&bytes[1..5]))),
            (Kind::Numbers, 9) => Ok(Answer::Numbers(Pair::read(&bytes[1..9]))),
            (Kind::Listed, _) => Pairs::read(bytes).map(Answer::Listed).ok_or(ReadError),
            _ => Err(ReadError),
        }
    }
}

impl Answer {
    fn kind(self) -> Kind
        ensures { kind_number result ≡ kind self }
    {
        match self {
            Answer::Refused(_) => Kind::Refused,
            Answer::Number(_) => Kind::Number,
            Answer::Numbers(_) => Kind::Numbers,
            Answer::Listed(_) => Kind::Listed,
        }
    }

    /// How many bytes the answer has.
    pub fn length(self) -> usize
        ensures { result ≡ length (answer_bytes self) }
    {
        match self {
            Answer::Refused(_) => 9,
            Answer::Number(_) => 5,
            Answer::Numbers(_) => 9,
            Answer::Listed(pairs) => 5 + 8 * pairs.count() as usize,
        }
    }

    /// Writes the answer to the front of `out`, and says how long it is; where there is too little room nothing is written.
    pub fn write(self, out: &mut [u8]) -> Option<usize>
        ensures value { result ≡ (if has_room self out.old then Some (length (answer_bytes self))
            else None) }
        ensures after { out.new ≡ (if has_room self out.old then over (answer_bytes self) out.old
            else out.old) }
    {
        let length = self.length();
        if out.len() < length {
            return None;
        }
        self.put(out);
        Some(length)
    }

    /// Writes the answer to the front.
    fn put(self, out: &mut [u8])
        requires { length (answer_bytes self) ≤ length out.old }
        ensures { out.new ≡ over (answer_bytes self) out.old }
    {
        out[0] = u8::from(self.kind());
        match self {
            Answer::Refused(Refused { refusal, place }) => {
                u32::from(refusal).put(&mut out[1..5]);
                place.put(&mut out[5..9]);
            }
            Answer::Number(number) => number.put(&mut out[1..5]),
            Answer::Numbers(pair) => pair.put(&mut out[1..9]),
            Answer::Listed(pairs) => {
                pairs.count().put(&mut out[1..5]);
                pairs.put(&mut out[5..]);
            }
        }
    }
}
