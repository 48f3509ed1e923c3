//! Orders: what is asked of a tuning, and its 17 bytes.
ghost use Rattle.std.specs.Prelude.{◌≡◌, length, slice_index};
ghost use Rattle.std.specs.Option.{ok_or};
ghost use Rattle.wire.specs.OrderKinds.{kind_of, kind_number};
ghost use Rattle.wire.specs.Orders.{tuning_of, asked_of, kind, own, tuning_bytes, tuning_in, order_bytes, read_order, order_of, misfit, own_misfit};

use super::bytes::Part;
use super::error::ReadError;

/// How many bytes an order has.
pub const LENGTH: usize = 17;

/// A tuning as an order gives it, in range or not.
#[derive(Clone, Copy, Debug, PartialEq, Eq)]
pub struct RawTuning {
    pub octave: u32,
    pub interval: u32,
    pub notes: u32,
}

impl Part for RawTuning {
    ghost size = { 12 };

    ghost bytes_of = { tuning_bytes };

    ghost value_of = { tuning_in };

    fn read(bytes: &[u8]) -> RawTuning {
        RawTuning {
            octave: u32::read(&bytes[0..4]),
            interval: u32::read(&bytes[4..8]),
            notes: u32::read(&bytes[8..12]),
        }
    }

    fn put(self, out: &mut [u8]) {
        self.octave.put(&mut out[0..4]);
        self.interval.put(&mut out[4..8]);
        self.notes.put(&mut out[8..12]);
    }
}

/// The kind of an order, by the number that is its first byte.
#[derive(Clone, Copy, Debug, PartialEq, Eq)]
enum Kind {
    Place = 0,
    Next = 1,
    At = 2,
    Sizes = 3,
    Whole = 4,
}

impl TryFrom<u8> for Kind {
    type Error = ReadError;

    ghost try_from_gives = { λ byte result. result ≡ ok_or (kind_of byte) (record {}) };

    fn try_from(byte: u8) -> Result<Kind, ReadError> {
        match byte {
            0 => Ok(Kind::Place),
            1 => Ok(Kind::Next),
            2 => Ok(Kind::At),
            3 => Ok(Kind::Sizes),
            4 => Ok(Kind::Whole),
            _ => Err(ReadError),
        }
    }
}

impl From<Kind> for u8 {
    ghost from_gives = { λ kind byte. byte ≡ kind_number kind };

    fn from(kind: Kind) -> u8 {
        kind as u8
    }
}

impl Kind {
    /// The order of this kind, if there is one: the own number of sizes is 0.
    fn order(self, tuning: RawTuning, own: u32) -> Option<Order<RawTuning>>
        ensures { result ≡ order_of (kind_number self) tuning own }
    {
        match self {
            Kind::Place => Some(Order::Place { tuning, note: own }),
            Kind::Next => Some(Order::Next { tuning, note: own }),
            Kind::At => Some(Order::At { tuning, place: own }),
            Kind::Sizes if own == 0 => Some(Order::Sizes { tuning }),
            Kind::Sizes => None,
            Kind::Whole => Some(Order::Whole { tuning, from: own }),
        }
    }
}

/// What is asked of a tuning: T is what is known of it.
#[derive(Clone, Copy, Debug, PartialEq, Eq)]
pub enum Order<T> {
    Place { tuning: T, note: u32 },
    Next { tuning: T, note: u32 },
    At { tuning: T, place: u32 },
    Sizes { tuning: T },
    Whole { tuning: T, from: u32 },
}

impl<T: Copy> Order<T> {
    /// What is known of the tuning.
    pub fn tuning(self) -> T
        ensures { result ≡ tuning_of self }
    {
        match self {
            Order::Sizes { tuning } => tuning,
            Order::Place { tuning, .. }
            | Order::Next { tuning, .. }
            | Order::At { tuning, .. }
            | Order::Whole { tuning, .. } => tuning,
        }
    }

    fn kind(self) -> Kind
        ensures { kind_number result ≡ kind self }
    {
        match self {
            Order::Place { .. } => Kind::Place,
            Order::Next { .. } => Kind::Next,
            Order::At { .. } => Kind::At,
            Order::Sizes { .. } => Kind::Sizes,
            Order::Whole { .. } => Kind::Whole,
        }
    }

    /// The order's own number, 0 for sizes.
    fn own(self) -> u32
        ensures { result ≡ own self }
    {
        match self {
            Order::Sizes { .. } => 0,
            Order::Place { note: own, .. }
            | Order::Next { note: own, .. }
            | Order::At { place: own, .. }
            | Order::Whole { from: own, .. } => own,
        }
    }

    /// The same question of another tuning.
    pub fn asked_of<U: Copy>(self, tuning: U) -> Order<U>
        ensures { result ≡ asked_of self tuning }
    {
        match self {
            Order::Place { note, .. } => Order::Place { tuning, note },
            Order::Next { note, .. } => Order::Next { tuning, note },
            Order::At { place, .. } => Order::At { tuning, place },
            Order::Sizes { .. } => Order::Sizes { tuning },
            Order::Whole { from, .. } => Order::Whole { tuning, from },
        }
    }
}

/// The order that the bytes are; where they are none, `Order::misfit` tells the place.
impl TryFrom<&[u8]> for Order<RawTuning> {
    type Error = ReadError;

    ghost try_from_gives = { λ bytes result. result ≡ ok_or (read_order bytes.now) (record {}) };

    fn try_from(bytes: &[u8]) -> Result<Order<RawTuning>, ReadError> {
        if bytes.len() != LENGTH {
            return Err(ReadError);
        }
        let kind = Kind::try_from(bytes[0])?;
        let tuning = RawTuning::read(&bytes[1..13]);
        kind.order(tuning, u32::read(&bytes[13..17]))
            .ok_or(ReadError)
    }
}

impl Order<RawTuning> {
    /// The order's bytes.
    // Named as the library's `to_le_bytes`: `<[u8; LENGTH]>::from(order)` at each call would be longer.
    pub fn to_bytes(self) -> [u8; LENGTH]
        ensures { result ≡ order_bytes self }
    {
        let mut bytes = [0; LENGTH];
        self.put(&mut bytes);
        bytes
    }

    /// Writes the order's 17 bytes.
    fn put(self, out: &mut [u8])
        requires { length out.old ≡ 17 }
        ensures { out.new ≡ order_bytes self }
    {
        out[0] = u8::from(self.kind());
        self.tuning().put(&mut out[1..13]);
        self.own().put(&mut out[13..17]);
    }

    /// The place of the first byte that doesn't fit; the length if the bytes are an order.
    pub fn misfit(bytes: &[u8]) -> u32
        ensures { result ≡ misfit bytes.now }
    {
        let length = bytes.len().min(LENGTH) as u32;
        match Kind::try_from(byte_at(bytes, 0)) {
            Err(ReadError) => 0,
            Ok(Kind::Sizes) => length.min(own_misfit(bytes)),
            Ok(_) => length,
        }
    }
}

// The first place of an own number that isn't 0, or the place past it. Each pass of a loop would be a round of the order's, so there is none.
fn own_misfit(bytes: &[u8]) -> u32
    ensures { result ≡ own_misfit bytes.now }
{
    if byte_at(bytes, 13) > 0 {
        13
    } else if byte_at(bytes, 14) > 0 {
        14
    } else if byte_at(bytes, 15) > 0 {
        15
    } else if byte_at(bytes, 16) > 0 {
        16
    } else {
        17
    }
}

// The byte at a place, or 0 past the end.
fn byte_at(bytes: &[u8], place: usize) -> u8
    ensures { result ≡ slice_index bytes.now place }
{
    bytes.get(place).copied().unwrap_or(0)
}
