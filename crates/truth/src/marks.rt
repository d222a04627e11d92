// Marks of nodes, and which of them there are.
ghost use Rattle.std.specs.Prelude.{◌≡◌, false, ◌&&◌, ◌||◌, ℕ, get_or, None, eqb};
ghost use Rattle.sheets.specs.Words.{within};
ghost use Rattle.truth.specs.Sizes.{members_most};
ghost use Rattle.truth.specs.inner.Rows.{row_has};
ghost use Rattle.truth.specs.inner.Marks.{AllMarks, MarkedRow};

use crate::rows::Row;
use crate::sizes::NODE_PLACES;

// The mark of each node that has one, and a row that has all of these marks.
#[derive(Clone, Copy)]
pub struct Marks {
    pub of: [Option<u16>; NODE_PLACES],
    pub all: Row,
    pub ghost every: { AllMarks of (row_has all) },
}

impl Marks {
    // No node has a mark.
    pub fn none() -> Marks
        ensures none { (s : ℕ) → get_or result.of s None ≡ None }
        ensures all { (e : ℕ) → row_has result.all e ≡ false }
    {
        Marks {
            of: [None; NODE_PLACES],
            all: Row::empty(),
        }
    }

    // Each node of the row gets the mark e.
    pub fn add(&mut self, row: Row, e: u16)
        ensures marked { MarkedRow (row_has row) e self.old.of self.new.of }
        ensures all { (i : ℕ) → row_has self.new.all i ≡ (row_has self.old.all i || (within 1 members_most e && eqb i e)) }
    {
        self.all = self.all.with(e);
        for s in row.members() {
            self.of[s as usize] = Some(e);
        }
    }
}
