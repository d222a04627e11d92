// A short line of bytes as a value, and a number's decimal digits on it.
ghost use Rattle.std.specs.Prelude.{◌≡◌, ◌≤◌, [], ◌∷◌, ◌++◌, decimal, length, take};
ghost use Rattle.text.specs.Lines.{line_room, shown, Holds, Adds};

use itoa::Buffer;

// The bytes that a line has room for.
pub const ROOM: usize = 20;

// A line of `len` bytes, at the head of the array. Any bytes and any length make one, and a length past the room makes a full one; `empty`
// and `of` leave 0 in the places past the bytes. The array is as long as the longest line, since nothing is kept on the heap.
#[derive(Clone, Copy)]
pub struct Line {
    pub bytes: [u8; ROOM],
    pub len: usize,
}

impl Line {
    // The line of no byte.
    pub fn empty() -> Line
        ensures { Holds result [] }
    {
        Line {
            bytes: [0; ROOM],
            len: 0,
        }
    }

    // The line of these bytes, as far as there is a place for them.
    #[tactic(auto, using(crate::proofs::HeldLines::holds_cut))]
    pub fn of(bytes: &[u8]) -> Line
        ensures { Holds result (take line_room bytes.now) }
    {
        Line::empty().with_bytes(bytes)
    }

    // The line with bytes more, as far as there is a place for them; a full one stays as it is.
    pub fn with_bytes(self, more: &[u8]) -> Line
        ensures added { Adds self more.now result }
        ensures shows { shown result ≡ take line_room (shown self ++ more.now) }
    {
        let mut bytes = self.bytes;
        let start = self.len.min(ROOM);
        let count = more.len().min(ROOM - start);
        let end = start + count;
        bytes[start..end].copy_from_slice(&more[..count]);
        Line {
            bytes,
            len: self.len + count,
        }
    }

    // The line with one byte more; a full one stays as it is.
    pub fn with_byte(self, byte: u8) -> Line
        ensures added { Adds self (byte ∷ []) result }
        ensures shows { shown result ≡ take line_room (shown self ++ (byte ∷ [])) }
    {
        self.with_bytes(&[byte])
    }

    // The line with a number's decimal digits more, as far as there is a place for them.
    pub fn with_number(self, n: u16) -> Line
        ensures added { Adds self (decimal n) result }
        ensures shows { shown result ≡ take line_room (shown self ++ decimal n) }
    {
        let mut digits = Buffer::new();
        self.with_bytes(digits.format(n).as_bytes())
    }

    // The bytes that it shows.
    #[tactic(auto, using(crate::proofs::HeldLines::shows_array))]
    pub fn as_slice(&self) -> &[u8]
        ensures value { result.now ≡ shown self.now }
        ensures fits { length result.now ≤ line_room }
    {
        let end = self.len.min(ROOM);
        &self.bytes[..end]
    }
}
