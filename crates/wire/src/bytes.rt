//! Parts: numbers, and what is made of numbers, each in so many bytes. Low bytes come first.
ghost use Rattle.std.specs.Prelude.{◌≡◌, ℕ, List, length};
ghost use Rattle.wire.specs.Bytes.{four, number_of};

/// A part of an order or an answer, whose bytes are as many for each of its values.
pub(crate) trait Part: Copy {
    ghost size: { ℕ };

    ghost bytes_of: { Self → List ℕ };

    ghost value_of: { List ℕ → Self };

    /// The value that the bytes are.
    fn read(bytes: &[u8]) -> Self
        requires { length bytes.now ≡ size }
        ensures { result ≡ value_of bytes.now };

    /// Writes the value's bytes.
    fn put(self, out: &mut [u8])
        requires { length out.old ≡ size }
        ensures { out.new ≡ bytes_of self };
}

impl Part for u32 {
    ghost size = { 4 };

    ghost bytes_of = { four };

    ghost value_of = { number_of };

    fn read(bytes: &[u8]) -> u32 {
        u32::from_le_bytes(bytes.try_into().unwrap())
    }

    fn put(self, out: &mut [u8]) {
        out.copy_from_slice(&self.to_le_bytes());
    }
}
