// Writing lines: the words of each line, one record after another, in the space for them.
ghost use Rattle.std.specs.Prelude.{◌≡◌, List, [], ◌∷◌, ◌++◌, ◌+◌, ◌*◌, ◌<◌, ◌≤◌, length, take};
ghost use Rattle.std.proofs.Math.Seq.{paste};
ghost use Rattle.truth.specs.Passed.{operation_number};
ghost use Rattle.truth.specs.Passed.{line_words, line_record};
ghost use Rattle.comparison.specs.inner.Sizes.{written_space, written_most};

use crate::sizes;
use truth::header;
use truth::header::Operation;

// A line: signal i; not line j; line i or line j; some next node has line j. It is not sheets' Line, which has an automaton and the lines
// of four variables with a path: comparison writes one automaton, and would have to answer for all the others.
#[derive(Clone, Copy, Debug, PartialEq, Eq)]
pub enum Line {
    Signal(u16),
    Not(u16),
    Or(u16, u16),
    Next(u16),
}

// Written lines: their words, and how many they are, in the room for the most that there may be, since nothing is kept on the heap. Lines
// count from 1. It has no `Model` by the list of its entries: all words would need one, also words that are no line's.
#[derive(Clone, Copy)]
pub struct Written {
    pub words: [u16; sizes::WRITTEN_SPACE],
    pub count: u16,
    pub ghost few: { count ≤ written_most },
}

// The two lines that a split writes for the parts of a block: where line p is true, and where it is not.
#[derive(Clone, Copy, Debug, PartialEq, Eq)]
pub struct PartLines {
    pub inside: u16,
    pub outside: u16,
}

// Copies the words into the space, from word `at` on.
pub fn copy(space: &mut [u16], at: usize, words: &[u16])
    requires { at + length words.now ≤ length space.old }
    ensures { space.new ≡ paste space.old at words.now (length words.now) }
{
    space[at..at + words.len()].copy_from_slice(words);
}

impl Written {
    ghost use Rattle.comparison.specs.inner.Lines.{Entry, entry, entry_of, signal_lines, first_lines, split, HoldsLines, Pushed};

    // No line.
    pub fn new() -> Written
        ensures { result.count ≡ 0 }
    {
        Written {
            words: [0; sizes::WRITTEN_SPACE],
            count: 0,
        }
    }

    // One line record more, of which the last three words are always 0; the number of the line.
    fn push_words(&mut self, operation: Operation, x: u16, y: u16) -> u16
        requires { self.old.count < written_most }
        ensures number { result ≡ self.old.count + 1 }
        ensures count { self.new.count ≡ self.old.count + 1 }
        ensures size { length self.new.words ≡ written_space }
        ensures words { take (line_words * self.old.count + line_words) self.new.words ≡ take (line_words * self.old.count) self.old.words ++ line_record (operation_number operation) x y }
    {
        let at = sizes::LINE_WORDS * (self.count as usize);
        copy(&mut self.words, at, &[operation.number(), x, y, 0, 0, 0]);
        self.count += 1;
        self.count
    }

    // One line more; its number.
    pub fn push(&mut self, line: Line) -> u16
        requires { self.old.count < written_most }
        ensures number { result ≡ self.old.count + 1 }
        ensures pushed { Pushed self.old self.new (entry_of line ∷ []) }
    {
        match line {
            Line::Signal(i) => self.push_words(Operation::Signal, i, 0),
            Line::Not(j) => self.push_words(Operation::Negation, j, 0),
            Line::Or(i, j) => self.push_words(Operation::Either, i, j),
            Line::Next(j) => self.push_words(Operation::SomePath, 1, j),
        }
    }

    // Line i, taken apart.
    pub fn line(&self, i: u16) -> Line
        requires low { 1 ≤ i }
        requires high { i ≤ written_most }
        ensures { (ls : List Entry) → HoldsLines self.now.words ls → i ≤ length ls → entry ls i ≡ entry_of result }
    {
        let k = sizes::LINE_WORDS * (i as usize - 1);
        let x = self.words[k + header::OPERAND];
        let y = self.words[k + header::SECOND_OPERAND];
        // Each line that was written has an operation's number. Nothing is asked of the callers for that, so any other number reads as `Next`.
        let Ok(operation) = Operation::try_from(self.words[k + header::OPERATION]) else {
            return Line::Next(y);
        };
        match operation {
            Operation::Signal => Line::Signal(x),
            Operation::Negation => Line::Not(x),
            Operation::Either => Line::Or(x, y),
            Operation::SomePath | Operation::SomePathNot => Line::Next(y),
        }
    }

    // Lines 1 to a: the signals.
    fn push_signals(&mut self, a: u16)
        requires empty { self.old.count ≡ 0 }
        requires few { a < written_most }
        ensures count { self.new.count ≡ a }
        ensures holds { HoldsLines self.new.words (signal_lines a) }
    {
        for i in 1..=a {
            self.push(Line::Signal(i));
        }
    }

    // The signals, and then signal 1 or not signal 1, which is true everywhere; the number of that line.
    pub fn push_first(&mut self, a: u16) -> u16
        requires empty { self.old.count ≡ 0 }
        requires few { a + 2 ≤ written_most }
        ensures number { result ≡ a + 2 }
        ensures count { self.new.count ≡ a + 2 }
        ensures holds { HoldsLines self.new.words (first_lines a) }
    {
        self.push_signals(a);
        let not_first = self.push(Line::Not(1));
        self.push(Line::Or(1, not_first))
    }

    // The lines of a split of line b by line p.
    pub fn push_split(&mut self, b: u16, p: u16) -> PartLines
        requires { self.old.count + 6 ≤ written_most }
        ensures inside { result.inside ≡ self.old.count + 4 }
        ensures outside { result.outside ≡ self.old.count + 6 }
        ensures pushed { Pushed self.old self.new (split self.old.count b p) }
    {
        let not_b = self.push(Line::Not(b));
        let not_p = self.push(Line::Not(p));
        let outside_or_not_b = self.push(Line::Or(not_b, not_p));
        let inside = self.push(Line::Not(outside_or_not_b));
        let inside_or_not_b = self.push(Line::Or(not_b, p));
        let outside = self.push(Line::Not(inside_or_not_b));
        PartLines { inside, outside }
    }
}
