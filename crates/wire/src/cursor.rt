// Reading forward over the bytes of a unit: a cursor, and the parts that it hands out.
ghost use Rattle.std.specs.Prelude.{◌≡◌};
ghost use Rattle.wire.specs.Reading.{start, read_byte, read_end, read_two_bytes, read_four_bytes, read_length, read_field, allows_length, read_rest};
ghost use Rattle.wire.specs.CursorViews.{position_of, length_result, position_result, located};

use crate::fault::LengthFault;

/// A part of the bytes that a reader was given.
#[derive(Clone, Copy)]
pub struct Part<'a> {
    /// How many of the bytes given lie before it.
    pub offset: usize,
    pub bytes: &'a [u8],
}

/// The lengths that a field may have, in bytes.
#[derive(Clone, Copy)]
pub enum FieldLength {
    Exactly(usize),
    AtLeast(usize),
}

impl FieldLength {
    fn admits(self, n: usize) -> bool
        ensures { result ≡ allows_length self n }
    {
        match self {
            FieldLength::Exactly(size) => n == size,
            FieldLength::AtLeast(least) => least <= n,
        }
    }
}

/// Reads forward over the bytes given. A read that is refused leaves it behind the bytes read until then.
#[derive(Clone, Copy)]
pub struct Cursor<'a> {
    /// The bytes that are left.
    pub left: &'a [u8],
    /// How many of the bytes given lie before the end of those that are left.
    pub end: usize,
}

impl<'a> Cursor<'a> {
    /// A cursor at the first of these bytes.
    pub fn new(bytes: &'a [u8]) -> Cursor<'a>
        ensures { position_of result ≡ start bytes.now }
    {
        Cursor {
            left: bytes,
            end: bytes.len(),
        }
    }

    /// The next byte. Refused where none is left.
    pub fn byte(&mut self) -> Result<u8, LengthFault>
        ensures { read_byte (position_of self.old) ≡ (length_result result, position_of self.new) }
    {
        let (b, rest) = self.left.split_first().ok_or(LengthFault)?;
        self.left = rest;
        Ok(*b)
    }

    /// The next two bytes as one number, the high one first. Refused where they are not left.
    pub fn two_bytes(&mut self) -> Result<u16, LengthFault>
        ensures { read_two_bytes (position_of self.old) ≡ (length_result result, position_of self.new) }
    {
        Ok(u16::from_be_bytes([self.byte()?, self.byte()?]))
    }

    /// The next four bytes as one number, the highest first. Refused where they are not left.
    pub fn four_bytes(&mut self) -> Result<u32, LengthFault>
        ensures { read_four_bytes (position_of self.old) ≡ (length_result result, position_of self.new) }
    {
        Ok(u32::from_be_bytes([self.byte()?, self.byte()?, self.byte()?, self.byte()?]))
    }

    /// A length field: one byte below `80`, or `81` and one byte, or `82` and two; longer forms than needed are read too.
    /// Refused where it is malformed or its bytes are not left.
    pub fn length(&mut self) -> Result<usize, LengthFault>
        ensures { read_length (position_of self.old) ≡ (length_result result, position_of self.new) }
    {
        match self.byte()? {
            short if short < 0x80 => Ok(usize::from(short)),
            0x81 => Ok(usize::from(self.byte()?)),
            0x82 => Ok(usize::from(self.two_bytes()?)),
            _ => Err(LengthFault),
        }
    }

    /// A length field and that many bytes, which are handed out as a cursor of their own.
    /// Refused where the length is malformed or is none of `size`, or where so many bytes are not left.
    pub fn field(&mut self, size: FieldLength) -> Result<Cursor<'a>, LengthFault>
        ensures { read_field size (position_of self.old) ≡ (position_result result, position_of self.new) }
    {
        let n = self.length()?;
        if !size.admits(n) {
            return Err(LengthFault);
        }
        let (here, rest) = self.left.split_at_checked(n).ok_or(LengthFault)?;
        self.left = rest;
        Ok(Cursor {
            left: here,
            end: self.end.saturating_sub(rest.len()),
        })
    }

    /// All that is left, which may be nothing.
    pub fn rest(self) -> Part<'a>
        ensures { located result ≡ read_rest (position_of self.entry) }
    {
        Part {
            offset: self.end.saturating_sub(self.left.len()),
            bytes: self.left,
        }
    }

    /// Refused unless nothing is left.
    pub fn finish(&self) -> Result<(), LengthFault>
        ensures { read_end (position_of self.now) ≡ length_result result }
    {
        if self.left.is_empty() {
            Ok(())
        } else {
            Err(LengthFault)
        }
    }
}
