// A text read byte by byte: what a byte is, and the reader's state before it.
ghost use Rattle.std.specs.Prelude.{◌≡◌, ◌^◌, ◌≤◌};
ghost use Rattle.text.specs.Texts as Texts;
ghost use Rattle.text.specs.inner.Readers.{Moves, start_of, stopped_at, Steps};

use crate::read::{Kind, Place};

// What a byte is between comments: three kinds, so no Option.
#[derive(Clone, Copy, Debug, PartialEq, Eq)]
pub enum Sort {
    Blank,
    Digit { value: u8 },
    Other,
}

// What stands before a byte: a gap, a number with the place of its first digit, or a fault. Three kinds, so no Result. A fault's two parts
// stand here by themselves: with a `Fault` in their place each byte took half as many steps again, since its place lay elsewhere than a number's.
#[derive(Clone, Copy, Debug, PartialEq, Eq)]
pub enum State {
    Gap,
    Number { from: Place, value: u16 },
    Stopped { kind: Kind, at: Place },
}

// A reader before a byte: whether the byte before it belongs to a comment, the byte's place, the words that there is room for from there
// on, and what stands before it. `comment` is no kind of state: a comment counts as a space, whatever stands before.
#[derive(Clone, Copy, Debug, PartialEq, Eq)]
pub struct Reader {
    pub comment: bool,
    pub at: Place,
    pub room: usize,
    pub state: State,
}

impl From<u8> for Sort {
    ghost from_gives = { λ byte sort. sort ≡ Texts.sort_of byte };

    fn from(byte: u8) -> Sort {
        if is_blank(byte) {
            Sort::Blank
        } else if byte.is_ascii_digit() {
            Sort::Digit { value: byte - b'0' }
        } else {
            Sort::Other
        }
    }
}

fn is_blank(byte: u8) -> bool
    ensures { result ≡ Texts.blank byte }
{
    matches!(byte, b' ' | b'\t' | b'\r' | b'\n')
}

impl Place {
    // The place of the byte after a byte.
    fn next(self, byte: u8) -> Place
        requires line { self.line ≤ 2 ^ 63 }
        requires column { self.column ≤ 2 ^ 63 }
        ensures { result ≡ Texts.next self byte }
    {
        if byte == b'\n' {
            Place {
                line: self.line + 1,
                column: 1,
            }
        } else {
            Place {
                line: self.line,
                column: self.column + 1,
            }
        }
    }
}

impl Reader {
    // Before the first byte.
    pub fn start(room: usize) -> Reader
        ensures { result ≡ start_of room }
    {
        Reader {
            comment: false,
            at: Place { line: 1, column: 1 },
            room,
            state: State::Gap,
        }
    }

    // After one byte more; a byte of a comment counts as a space.
    pub fn step(self, byte: u8) -> Reader
        requires line { self.at.line ≤ 2 ^ 63 }
        requires column { self.at.column ≤ 2 ^ 63 }
        ensures { Steps self byte result }
    {
        let comment = (byte != b'\n') & (self.comment | (byte == b'#'));
        let seen = if comment { b' ' } else { byte };
        let after = self.moved(seen);
        Reader {
            comment,
            at: self.at.next(seen),
            room: after.room,
            state: after.state,
        }
    }

    // With the state after a byte, and the room that it leaves.
    fn moved(self, byte: u8) -> Reader
        ensures { Moves self byte result }
    {
        match self.state {
            State::Gap => self.in_gap(byte),
            State::Number { from, value } => self.in_number(from, value, byte),
            State::Stopped { .. } => self,
        }
    }

    // After a byte that follows a gap.
    fn in_gap(self, byte: u8) -> Reader
        requires { self.state ≡ State.Gap }
        ensures { Moves self byte result }
    {
        match Sort::from(byte) {
            Sort::Blank => self,
            Sort::Digit { value } => {
                let full = self.room == 0;
                if full {
                    self.stopped(Kind::NoRoom, self.at)
                } else {
                    Reader {
                        room: self.room - 1,
                        state: State::Number {
                            from: self.at,
                            value: u16::from(value),
                        },
                        ..self
                    }
                }
            }
            Sort::Other => self.stopped(Kind::NotDecimal, self.at),
        }
    }

    // After a byte that follows a number's digits.
    fn in_number(self, from: Place, value: u16, byte: u8) -> Reader
        requires { self.state ≡ State.Number from value }
        ensures { Moves self byte result }
    {
        match Sort::from(byte) {
            Sort::Blank => Reader {
                state: State::Gap,
                ..self
            },
            Sort::Digit { value: digit } => {
                let longer = 10 * u32::from(value) + u32::from(digit);
                match u16::try_from(longer) {
                    Ok(value) => Reader {
                        state: State::Number { from, value },
                        ..self
                    },
                    Err(_) => self.stopped(Kind::Above, from),
                }
            }
            Sort::Other => self.stopped(Kind::NotDecimal, self.at),
        }
    }

    // At a fault.
    fn stopped(self, kind: Kind, at: Place) -> Reader
        ensures { result ≡ stopped_at self kind at }
    {
        Reader {
            state: State::Stopped { kind, at },
            ..self
        }
    }
}
