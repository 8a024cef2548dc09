// Bytes that are kept, up to a limit.
ghost use Rattle.std.specs.Prelude.{◌≡◌, ◌+◌, ◌≤◌, [], ◌++◌, length, take, nat_le};
ghost use Rattle.slot.specs.AddIfFits.{add_if_fits};
ghost use Rattle.slot.specs.BufferViews.{items};

/// At most `MOST` bytes, which are kept one after the other. It is copied as a value, and dropping its bytes costs nothing.
#[derive(Clone, Copy)]
pub struct Buffer<const MOST: usize> {
    // The first so many of these are kept.
    bytes: [u8; MOST],
    length: usize,
}

impl<const MOST: usize> Buffer<MOST> {
    /// No bytes.
    pub fn new() -> Buffer<MOST>
        ensures { items result ≡ [] }
    {
        Buffer {
            bytes: [0; MOST],
            length: 0,
        }
    }

    /// The bytes that are kept.
    pub fn as_slice(&self) -> &[u8]
        ensures { result.now ≡ items self.now }
    {
        &self.bytes[..self.length.min(MOST)]
    }

    /// No byte is left.
    pub fn clear(&mut self)
        ensures { items self.new ≡ [] }
    {
        self.length = 0;
    }

    /// The first `n` bytes are left, or all where there are fewer.
    pub fn truncate(&mut self, n: usize)
        ensures { items self.new ≡ take n (items self.old) }
    {
        self.length = self.length.min(n);
    }

    /// Adds these bytes to those before, if all of them are at most `MOST`, and tells whether they are. Where there would be
    /// more, nothing changes.
    pub fn add(&mut self, more: &[u8]) -> bool
        ensures { add_if_fits (nat_le (length (items self.old) + length more.now) MOST) (λ bs. bs ++ more.now) (items self.old) ≡ (result, items self.new) }
    {
        let held = self.as_slice().len();
        if more.len() > MOST - held {
            return false;
        }
        self.append(more);
        true
    }

    // Adds these bytes, for which there is room.
    fn append(&mut self, more: &[u8])
        requires { length (items self.old) + length more.now ≤ MOST }
        ensures { items self.new ≡ items self.old ++ more.now }
    {
        let held = self.as_slice().len();
        let end = held + more.len();
        let bytes = &mut self.bytes[..];
        bytes[held..end].copy_from_slice(more);
        self.length = end;
    }
}
