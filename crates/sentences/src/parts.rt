// The parts of a line: what holds together exactly where the line holds, or exactly where it does not. A line that says "not" is what
// it denies, the other way round; "neither" of two lines is taken apart into both.
ghost use Rattle.std.specs.Prelude.{◌≡◌};

use sheets::lines::Line;
use sheets::{format, lines};
use std::fmt;
use std::fmt::Display;

// The mark of a line: that it holds, that it does not, both or none. Two flags, since each is added by itself.
#[derive(Clone, Copy, Debug, PartialEq, Eq)]
pub struct Mark {
    pub holds: bool,
    pub fails: bool,
}

impl Mark {
    pub const NONE: Mark = Mark {
        holds: false,
        fails: false,
    };

    pub const HOLDS: Mark = Mark {
        holds: true,
        fails: false,
    };

    pub const FAILS: Mark = Mark {
        holds: false,
        fails: true,
    };

    // Both marks at once.
    fn and(self, other: Mark) -> Mark {
        Mark {
            holds: self.holds | other.holds,
            fails: self.fails | other.fails,
        }
    }

    // The other way round.
    fn turned(self) -> Mark {
        Mark {
            holds: self.fails,
            fails: self.holds,
        }
    }
}

// What a line with the mark does.
impl Display for Mark {
    fn fmt<W: fmt::Write>(&self, f: &mut fmt::Formatter<W>) -> fmt::Result {
        f.write_str(match (self.holds, self.fails) {
            (true, false) => "holds",
            (false, true) => "does not hold",
            _ => "holds and does not hold",
        })
    }
}

// The marks of the lines: a written rule has fewer lines than have a place here.
#[derive(Clone, Copy)]
struct Marks {
    of: [Mark; format::LINES],
}

impl Marks {
    fn get(&self, j: u16) -> Mark {
        self.of.get(j as usize).copied().unwrap_or(Mark::NONE)
    }

    fn set(&mut self, j: u16, mark: Mark) {
        if let Some(place) = self.of.get_mut(j as usize) {
            *place = mark;
        }
    }

    fn add(&mut self, j: u16, mark: Mark) {
        self.set(j, self.get(j).and(mark));
    }
}

// The bit of signal i in a set of signals: bit i - 1.
fn bit(i: u16) -> u16 {
    if i == 0 {
        return 0;
    }
    1 << ((i - 1) % format::WORD_BITS)
}

// Signals that are on, and signals that are off: two sets, each the bits of a word, as a node's signals are in the format.
#[derive(Clone, Copy)]
pub struct OnAndOff {
    pub on: u16,
    pub off: u16,
}

// The parts of a line: the signals that are on and those that are off, and the lines up to this one that stay marked as parts, `rest`
// of them. `room` is how many more lines may be taken apart.
#[derive(Clone, Copy)]
pub struct Parts {
    pub signals: OnAndOff,
    pub line: u16,
    pub rest: u16,
    room: u16,
    marks: Marks,
}

impl Parts {
    // The parts of line k with this mark: signals, and the lines that are left marked, at most 12.
    pub fn of(rule: &[u16], k: u16, mark: Mark) -> Parts
        ensures { result.line ≡ k }
    {
        let mut parts = Parts {
            signals: OnAndOff { on: 0, off: 0 },
            line: k,
            rest: 0,
            room: 11,
            marks: Marks {
                of: [Mark::NONE; format::LINES],
            },
        };
        parts.marks.set(k, mark);
        for l in (1..=k).rev() {
            let mark = parts.marks.get(l);
            if mark != Mark::NONE {
                parts.take_apart(rule, l, mark);
            }
        }
        parts
    }

    // The mark of line l.
    pub fn mark_of(&self, l: u16) -> Mark {
        self.marks.get(l)
    }

    // Line l has this mark, and every line below it is done.
    fn take_apart(&mut self, rule: &[u16], l: u16, mark: Mark)
        ensures { self.new.line ≡ self.old.line }
    {
        match lines::decode(rule, l) {
            Some(Line::Signal(i)) => {
                self.marks.set(l, Mark::NONE);
                self.add_signal(i, mark);
            }
            Some(Line::Negation(j)) => {
                self.marks.set(l, Mark::NONE);
                self.marks.add(j, mark.turned());
            }
            Some(Line::Either(i, j)) => {
                if mark == Mark::FAILS {
                    self.add_neither(l, i, j);
                } else {
                    self.keep();
                }
            }
            _ => self.keep(),
        }
    }

    fn add_signal(&mut self, i: u16, mark: Mark)
        ensures { self.new.line ≡ self.old.line }
    {
        if mark.holds {
            self.signals.on |= bit(i);
        }
        if mark.fails {
            self.signals.off |= bit(i);
        }
    }

    // A line stays marked.
    fn keep(&mut self)
        ensures { self.new.line ≡ self.old.line }
    {
        self.rest = self.rest.wrapping_add(1);
    }

    // Neither line i nor line j, if there is room to say so; otherwise line l stays marked.
    fn add_neither(&mut self, l: u16, i: u16, j: u16)
        ensures { self.new.line ≡ self.old.line }
    {
        match self.room.checked_sub(1) {
            Some(room) => {
                self.room = room;
                self.marks.set(l, Mark::NONE);
                self.marks.add(i, Mark::FAILS);
                self.marks.add(j, Mark::FAILS);
            }
            None => self.keep(),
        }
    }
}
