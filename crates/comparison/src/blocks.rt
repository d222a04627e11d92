// Blocks of nodes of two machines, in tables: whether two sets split a block, and splitting it.
ghost use Rattle.std.specs.Prelude.{◌≡◌, List, ℕ, ◌<◌, ◌≤◌};
ghost use Rattle.truth.specs.inner.Rows.{row_has, rows_has};
ghost use Rattle.comparison.specs.inner.Sizes.{block_places};
ghost use Rattle.comparison.specs.inner.Refinement.{PartedRows};

use crate::machines::{Both, Sets};
use crate::sizes;
use crate::writing::Written;
use truth::rows::Row;
use truth::tables::{load, store};

// The nodes of two machines in blocks: row c of each table has the nodes of block c of its machine, `line` at c the line that is true there
// and nowhere else. The blocks are the first `count`, of as many as there is room for, since nothing is kept on the heap. Rows and lines
// stand in arrays of their own: each is read without the other.
#[derive(Clone, Copy)]
pub struct Partition {
    pub rows: Both<[u64; sizes::BLOCK_WORDS]>,
    pub line: [u16; sizes::BLOCK_PLACES],
    pub count: u16,
    pub lines: Written,
    pub ghost few: { count ≤ block_places },
}

// Row c is parted by the set x: the part outside it becomes row `count`.
fn part(rows: &mut [u64; sizes::BLOCK_WORDS], count: u16, c: u16, x: Row)
    requires below { c < count }
    requires few { count < block_places }
    ensures { PartedRows count c (row_has x) rows.old rows.new }
{
    let row = load(rows, c as usize);
    store(rows, c as usize, row.intersection(x));
    store(rows, count as usize, row.difference(x));
}

impl Partition {
    ghost use Rattle.comparison.specs.inner.Tables.{Room, SplitBlock, TellsMeets, TellsSplit};

    // The nodes of block c.
    pub fn block(&self, c: u16) -> Sets
        requires { c < self.now.count }
        ensures first { (s : ℕ) → row_has result.first s ≡ rows_has self.now.rows.first c s }
        ensures second { (t : ℕ) → row_has result.second t ≡ rows_has self.now.rows.second c t }
    {
        Both {
            first: load(&self.rows.first, c as usize),
            second: load(&self.rows.second, c as usize),
        }
    }

    // Whether block c has a node in one of the sets.
    fn meets(&self, c: u16, x: Sets) -> bool
        requires { c < self.now.count }
        ensures { (M₁ M₂ : List ℕ) → TellsMeets M₁ M₂ (rows_has self.now.rows.first) (rows_has self.now.rows.second) c (row_has x.first) (row_has x.second) result }
    {
        let first = load(&self.rows.first, c as usize);
        if first.meets(x.first) {
            return true;
        }
        let second = load(&self.rows.second, c as usize);
        second.meets(x.second)
    }

    // Whether the sets split block c: it has a node in them and one outside.
    pub fn splits(&self, c: u16, x: Sets) -> bool
        requires { c < self.now.count }
        ensures { (M₁ M₂ : List ℕ) → TellsSplit M₁ M₂ (rows_has self.now.rows.first) (rows_has self.now.rows.second) c (row_has x.first) (row_has x.second) result }
    {
        if !self.meets(c, x) {
            return false;
        }
        self.meets(c, x.map(Row::complement))
    }

    // Block c is split by the sets x, where line p is true.
    pub fn split_block(&mut self, c: u16, p: u16, x: Sets)
        requires { Room self.old c }
        ensures { SplitBlock self.old self.new c p (row_has x.first) (row_has x.second) }
    {
        let added = self.count;
        let lines = self.lines.push_split(self.line[c as usize], p);
        self.line[c as usize] = lines.inside;
        self.line[added as usize] = lines.outside;
        part(&mut self.rows.first, added, c, x.first);
        part(&mut self.rows.second, added, c, x.second);
        self.count = added + 1;
    }
}
