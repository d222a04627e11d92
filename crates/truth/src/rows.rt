// A truth row: a set of nodes as a value of two words. Union, complement and the like hand a new row back. A row is two words and not one of 128
// bits, since the C interface lends rows as words of 64 bits. A word that is not 0 has fewer zeros at an end than bits, so the remainder by
// the bits is their number itself, and shows that it fits where it is narrowed.
ghost use Rattle.std.specs.Prelude.{◌≡◌, ◌⊎◌, true, false, not, ◌&&◌, ◌||◌, ℕ, T, eqb};
ghost use Rattle.sheets.specs.Words.{within, each};
ghost use Rattle.truth.specs.Sizes.{members_most};
ghost use Rattle.truth.specs.inner.Rows.{row_has, tally, Lowest, Highest, TakesLowest, TakesHighest};
ghost use Rattle.std.specs.Iterator.{at_most};

use crate::sizes::{HIGH_FIRST, LOW_LAST, MEMBERS, ROW_WORD_BITS};

// A set of nodes, from 1 to MEMBERS. Its methods are named as those of std's sets; operators beside them would say no more.
#[derive(Clone, Copy)]
pub struct Row {
    pub low: u64,
    pub high: u64,
}

impl Row {
    // The set of no node: a constant of the row itself, and a maker without self, as document 01 has it.
    pub const EMPTY: Row = Row { low: 0, high: 0 };

    pub fn empty() -> Row
        ensures { (s : ℕ) → row_has result s ≡ false }
    {
        Row::EMPTY
    }

    pub fn has(self, s: u16) -> bool
        ensures { result ≡ row_has self s }
    {
        match s {
            1..=LOW_LAST => (self.low >> (s - 1)) & 1 == 1,
            HIGH_FIRST..=MEMBERS => (self.high >> (s - HIGH_FIRST)) & 1 == 1,
            _ => false,
        }
    }

    pub fn union(self, other: Row) -> Row
        ensures { (s : ℕ) → row_has result s ≡ (row_has self s || row_has other s) }
    {
        Row {
            low: self.low | other.low,
            high: self.high | other.high,
        }
    }

    pub fn intersection(self, other: Row) -> Row
        ensures { (s : ℕ) → row_has result s ≡ (row_has self s && row_has other s) }
    {
        Row {
            low: self.low & other.low,
            high: self.high & other.high,
        }
    }

    pub fn complement(self) -> Row
        ensures { (s : ℕ) → row_has result s ≡ (within 1 members_most s && not (row_has self s)) }
    {
        Row {
            low: !self.low,
            high: !self.high,
        }
    }

    pub fn with(self, s: u16) -> Row
        ensures { (i : ℕ) → row_has result i ≡ (row_has self i || (within 1 members_most s && eqb i s)) }
    {
        match s {
            1..=LOW_LAST => Row {
                low: self.low | (1 << (s - 1)),
                high: self.high,
            },
            HIGH_FIRST..=MEMBERS => Row {
                low: self.low,
                high: self.high | (1 << (s - HIGH_FIRST)),
            },
            _ => self,
        }
    }

    pub fn is_empty(self) -> bool
        ensures { result ≡ each members_most (λ s. not (row_has self s)) }
    {
        self.low == 0 && self.high == 0
    }

    pub fn count(self) -> u32
        ensures { result ≡ tally members_most (row_has self) }
    {
        u64::count_ones(self.low) + u64::count_ones(self.high)
    }

    // The nodes of the one that the other has not.
    pub fn difference(self, other: Row) -> Row
        ensures { (s : ℕ) → row_has result s ≡ (row_has self s && not (row_has other s)) }
    {
        self.intersection(other.complement())
    }

    // Whether some node is in both.
    pub fn meets(self, other: Row) -> bool
        ensures { result ≡ not (each members_most (λ s. not (row_has self s && row_has other s))) }
    {
        !self.intersection(other).is_empty()
    }

    pub fn without(self, s: u16) -> Row
        ensures { (i : ℕ) → row_has result i ≡ (row_has self i && not (eqb i s)) }
    {
        self.difference(Row::empty().with(s))
    }

    // The lowest node of the row.
    pub fn lowest(self) -> Option<u16>
        ensures { Lowest self result }
    {
        if self.low != 0 {
            return Some((u64::trailing_zeros(self.low) % ROW_WORD_BITS) as u16 + 1);
        }
        if self.high != 0 {
            return Some((u64::trailing_zeros(self.high) % ROW_WORD_BITS) as u16 + HIGH_FIRST);
        }
        None
    }

    // The highest node of the row.
    pub fn highest(self) -> Option<u16>
        ensures { Highest self result }
    {
        if self.high != 0 {
            return Some(MEMBERS - (u64::leading_zeros(self.high) % ROW_WORD_BITS) as u16);
        }
        if self.low != 0 {
            return Some(LOW_LAST - (u64::leading_zeros(self.low) % ROW_WORD_BITS) as u16);
        }
        None
    }

    // The nodes of the row that pass the test.
    pub fn filter<F: Fn(u16) -> bool>(self, test: F) -> Row
        requires { (s : ℕ) → T (row_has self s) → F.pre test s }
        ensures passed { (s : ℕ) → T (row_has result s) → T (row_has self s) × F.post test s true }
        ensures others { (s : ℕ) → T (row_has self s) → T (row_has result s) ⊎ F.post test s false }
    {
        let mut out = Row::empty();
        for s in self.members() {
            if test(s) {
                out = out.with(s);
            }
        }
        out
    }

    // The nodes of the row, from the lowest on.
    pub fn members(self) -> Members
        ensures { result.left ≡ self }
    {
        Members { left: self }
    }
}

// The nodes of a row that are still to come, from the lowest on, and from the highest on by `rev`.
#[derive(Drop)]
pub struct Members {
    left: Row,
}

impl Iterator for Members {
    type Item = u16;

    ghost next_gives = { λ s r t. TakesLowest s.left r t.left };

    ghost remaining = { λ s. at_most (tally members_most (row_has s.left)) };

    fn next(&mut self) -> Option<u16> {
        let first = self.left.lowest()?;
        self.left = self.left.without(first);
        Some(first)
    }
}

impl DoubleEndedIterator for Members {
    ghost next_back_gives = { λ s r t. TakesHighest s.left r t.left };

    fn next_back(&mut self) -> Option<u16> {
        let last = self.left.highest()?;
        self.left = self.left.without(last);
        Some(last)
    }
}
