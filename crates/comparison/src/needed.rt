// Needed lines: of a list of written lines, those that the last one needs. Lines that are found to be true at the same nodes are made one.
ghost use Rattle.std.specs.Prelude.{◌≡◌, ◌≢◌, List, ℕ, ◌-◌, ◌≤◌, true, false, length, get_or, set, Some, IfNone, IfSome};
ghost use Rattle.comparison.specs.inner.Sizes.{written_most};
ghost use Rattle.comparison.specs.inner.Lines.{Entry, entry, entry_of, Downward, Lists};
ghost use Rattle.comparison.specs.inner.Needed.{renumber, marks, AllStand, NumberOr, EitherOf, MergedIn, Closed, Copied, Listed, ShortLines};

use crate::sizes;
use crate::writing::{Line, Written};

// What is known of each line, or `none`. It has a place for each line that is written; past its end nothing is known.
#[derive(Clone, Copy)]
pub struct Table<T> {
    places: [T; sizes::LINE_PLACES],
}

impl<T: Copy> Table<T> {
    // Nothing is known yet.
    fn all(none: T) -> Table<T>
        ensures { (k : ℕ) → get_or result.places k none ≡ none }
    {
        Table {
            places: [none; sizes::LINE_PLACES],
        }
    }

    fn get_or(&self, i: u16, none: T) -> T
        ensures { result ≡ get_or self.now.places i none }
    {
        self.places.get(i as usize).copied().unwrap_or(none)
    }

    fn put(&mut self, i: u16, v: T)
        ensures { self.new.places ≡ set self.old.places i v }
    {
        let i = i as usize;
        // A test and an index: by `get_mut` both goals stay open, since a proof then knows no more of the table than its length.
        if i < self.places.len() {
            self.places[i] = v;
        }
    }
}

// A number for each line, 0 for none: memory is fixed, and four tables of 1,024 places stand on the stack that include/toqshenay.h names,
// where Options would take twice the space.
pub type Numbers = Table<u16>;

// Which lines are needed.
pub type Marked = Table<bool>;

impl Table<u16> {
    fn get(&self, i: u16) -> u16
        ensures { result ≡ get_or self.now.places i 0 }
    {
        self.get_or(i, 0)
    }

    // The number of line i, if it has one.
    fn find(&self, i: u16) -> Option<u16>
        ensures none { IfNone result (get_or self.now.places i 0 ≡ 0) }
        ensures low { IfSome result (λ v. 1 ≤ v) }
        ensures some { IfSome result (λ v. v ≡ get_or self.now.places i 0) }
    {
        match self.get(i) {
            0 => None,
            v => Some(v),
        }
    }

    // The number of line j; or i, which it has from now on.
    fn number_or(&mut self, j: u16, i: u16) -> u16
        ensures { NumberOr j i (set self.old.places j i) self.old.places self.new.places result }
    {
        match self.find(j) {
            Some(before) => before,
            None => {
                self.put(j, i);
                i
            }
        }
    }

    // The number of line j; or i, and then each of the two has the other.
    fn opposite_or(&mut self, j: u16, i: u16) -> u16
        ensures { NumberOr j i (set (set self.old.places j i) i j) self.old.places self.new.places result }
    {
        match self.find(j) {
            Some(before) => before,
            None => {
                self.put(j, i);
                self.put(i, j);
                i
            }
        }
    }
}

// ---- lines made one

// Of the lines that are done, for each one: in `same` the first line found that is true where it is, in `other` one that is true exactly
// where it is not, in `nexts` one that is true where some next node has it. Line `top` is true everywhere. They are three tables, since each
// is read by itself.
#[derive(Clone, Copy)]
pub struct Merging {
    same: Numbers,
    other: Numbers,
    nexts: Numbers,
    top: Option<u16>,
}

impl Merging {
    // No line is done.
    fn new() -> Merging
        ensures { (ls : List Entry) → MergedIn ls 0 result }
    {
        Merging {
            same: Numbers::all(0),
            other: Numbers::all(0),
            nexts: Numbers::all(0),
            top: None,
        }
    }

    // Line i is "line x or line y": the other one, where one of them is true nowhere, or line i.
    fn either(&self, x: u16, y: u16, i: u16) -> u16
        ensures { EitherOf self.now.other.places self.now.top x y i result }
    {
        let Some(top) = self.top else {
            return i;
        };
        let Some(nowhere) = self.other.find(top) else {
            return i;
        };
        if x == nowhere {
            return y;
        }
        if y == nowhere {
            return x;
        }
        i
    }

    // Line i is "line x or line y", which is true everywhere if y is true exactly where x is not.
    fn top_after(&self, x: u16, y: u16, i: u16) -> Option<u16>
        ensures found { get_or self.now.other.places x 0 ≡ y → result ≡ Some i }
        ensures kept { get_or self.now.other.places x 0 ≢ y → result ≡ self.now.top }
    {
        // No line is 0, so that a line with no opposite yet has not line y.
        if self.other.get(x) == y {
            return Some(i);
        }
        self.top
    }

    // The next line, i, is done.
    fn merge_line(&mut self, line: Line, i: u16)
        requires low { 1 ≤ i }
        requires high { i ≤ written_most }
        ensures { (a : ℕ) (ls : List Entry) → Downward a ls → i ≤ length ls → entry ls i ≡ entry_of line → MergedIn ls (i - 1) self.old → MergedIn ls i self.new }
    {
        match line {
            Line::Signal(_) => self.same.put(i, i),
            Line::Not(j) => {
                let there = self.same.get(j);
                let found = self.other.opposite_or(there, i);
                self.same.put(i, found);
            }
            Line::Or(j, k) => {
                let x = self.same.get(j);
                let y = self.same.get(k);
                let found = self.either(x, y, i);
                self.same.put(i, found);
                self.top = self.top_after(x, y, i);
            }
            Line::Next(j) => {
                let there = self.same.get(j);
                let found = self.nexts.number_or(there, i);
                self.same.put(i, found);
            }
        }
    }

    // For each of the lines, the line that stands for it.
    fn merge(&mut self, lines: &Written)
        requires none { (ls : List Entry) → MergedIn ls 0 self.old }
        ensures { (a : ℕ) (ls : List Entry) → Lists a lines.now ls → AllStand ls lines.now.count self.new.same.places }
    {
        for i in 1..=lines.count {
            self.merge_line(lines.line(i), i);
        }
    }
}

// ---- needed lines

impl Table<bool> {
    // Whether line i is needed.
    fn has(&self, i: u16) -> bool
        ensures { result ≡ get_or self.now.places i false }
    {
        self.get_or(i, false)
    }

    // Line i is needed.
    fn mark(&mut self, i: u16)
        ensures { self.new.places ≡ set self.old.places i true }
    {
        self.put(i, true);
    }
}

// The lines that a needed line refers to are needed.
#[tactic(auto, unfolding(crate::specs::inner::Needed::marks))]
fn mark_line(line: Line, same: &Numbers, needed: &mut Marked)
    ensures { needed.new.places ≡ marks (λ j. get_or same.now.places j 0) (entry_of line) needed.old.places }
{
    match line {
        Line::Signal(_) => {}
        Line::Not(j) => needed.mark(same.get(j)),
        Line::Or(i, j) => {
            needed.mark(same.get(i));
            needed.mark(same.get(j));
        }
        Line::Next(j) => needed.mark(same.get(j)),
    }
}

// The lines that line j needs, from line j up.
fn mark(lines: &Written, j: u16, same: &Numbers, needed: &mut Marked)
    requires low { 1 ≤ j }
    requires high { j ≤ written_most }
    requires none { (k : ℕ) → get_or needed.old.places k false ≡ false }
    ensures { (a : ℕ) (ls : List Entry) → Lists a lines.now ls → j ≤ length ls → AllStand ls (length ls) same.now.places → Closed ls same.now.places 0 j needed.new.places }
{
    needed.mark(j);
    for i in (1..=j).rev() {
        if needed.has(i) {
            mark_line(lines.line(i), same, needed);
        }
    }
}

// The line with its references renumbered.
#[tactic(auto, unfolding(crate::specs::inner::Needed::renumber))]
fn renumbered(line: Line, same: &Numbers, number: &Numbers) -> Line
    ensures { entry_of result ≡ renumber (λ j. get_or number.now.places (get_or same.now.places j 0) 0) (entry_of line) }
{
    match line {
        Line::Signal(i) => Line::Signal(i),
        Line::Not(j) => Line::Not(number.get(same.get(j))),
        Line::Or(i, j) => Line::Or(number.get(same.get(i)), number.get(same.get(j))),
        Line::Next(j) => Line::Next(number.get(same.get(j))),
    }
}

// The needed lines of lines 1 to j are written one below the other.
fn copy_needed(lines: &Written, j: u16, same: &Numbers, needed: &Marked, out: &mut Written)
    requires few { j ≤ written_most }
    ensures few { out.new.count ≤ j }
    ensures copied { (a : ℕ) (ls : List Entry) → Lists a lines.now ls → j ≤ length ls → AllStand ls (length ls) same.now.places
        → Closed ls same.now.places 0 j needed.now.places
        → (number : List ℕ) × Copied a ls same.now.places needed.now.places j number out.new.words out.new.count }
{
    let mut number = Numbers::all(0);
    out.count = 0;
    for i in 1..=j {
        if needed.has(i) {
            let line = renumbered(lines.line(i), same, &number);
            number.put(i, out.push(line));
        }
    }
}

// Of the written lines, those that the last one needs are written one below the other.
pub fn shorten(lines: &Written, out: &mut Written)
    requires some { 1 ≤ lines.now.count }
    requires listed { Listed lines.now }
    ensures few { out.new.count ≤ lines.now.count }
    ensures shortened { (a : ℕ) (ls : List Entry) → Lists a lines.now ls → ShortLines a ls out.new.words out.new.count }
{
    let mut merging = Merging::new();
    merging.merge(lines);
    let last = merging.same.get(lines.count);
    let mut needed = Marked::all(false);
    mark(lines, last, &merging.same, &mut needed);
    copy_needed(lines, last, &merging.same, &needed, out);
}
