// Signatures: marks of the blocks on the nodes, the marks that a node's edges lead to, and a mark in which two nodes of a block differ.
ghost use Rattle.std.specs.Prelude.{◌≡◌, true, ◌&&◌, ◌||◌, ℕ, ◌+◌, ◌<◌, leb, eqb};
ghost use Rattle.truth.specs.Sizes.{members_most};
ghost use Rattle.truth.specs.Passed.{within};
ghost use Rattle.truth.specs.inner.Rows.{row_has, rows_has, leads_into};
ghost use Rattle.truth.specs.inner.Marks.{MarkedRow};
ghost use Rattle.comparison.specs.inner.Signatures.{BlockMarks, TellsApart, TellsUnlike, TellsOne, Alone, Led, TellsMark};
ghost use Rattle.comparison.specs.inner.Blocks.{Members};

use crate::blocks::Partition;
use crate::machines::{Both, Machines, Sets};
use truth::marks::Marks;
use truth::rows::Row;
use truth::structure::Machine;

// The signature of the node of a row that leads, and the other nodes.
#[derive(Clone, Copy)]
pub struct Lead {
    pub marks: Row,
    pub rest: Row,
}

impl Partition {
    // The nodes of block c get their mark, which is c + 1.
    pub fn mark_block(&self, c: u16, marks: &mut Both<Marks>)
        requires { c < self.now.count }
        ensures first { MarkedRow (rows_has self.now.rows.first c) (c + 1) marks.old.first.of marks.new.first.of }
        ensures second { MarkedRow (rows_has self.now.rows.second c) (c + 1) marks.old.second.of marks.new.second.of }
        ensures first_all { (e : ℕ) → row_has marks.new.first.all e ≡ (row_has marks.old.first.all e || (within 1 members_most (c + 1) && eqb e (c + 1))) }
        ensures second_all { (e : ℕ) → row_has marks.new.second.all e ≡ (row_has marks.old.second.all e || (within 1 members_most (c + 1) && eqb e (c + 1))) }
    {
        let block = self.block(c);
        marks.first.add(block.first, c + 1);
        marks.second.add(block.second, c + 1);
    }

    // The marks of the blocks.
    pub fn marks(&self) -> Both<Marks>
        ensures first { BlockMarks (rows_has self.now.rows.first) self.now.count result.first.of }
        ensures second { BlockMarks (rows_has self.now.rows.second) self.now.count result.second.of }
        ensures first_all { (e : ℕ) → row_has result.first.all e ≡ (leb e self.now.count && within 1 members_most e) }
        ensures second_all { (e : ℕ) → row_has result.second.all e ≡ (leb e self.now.count && within 1 members_most e) }
    {
        let mut marks = Both {
            first: Marks::none(),
            second: Marks::none(),
        };
        for c in 0..self.count {
            self.mark_block(c, &mut marks);
        }
        marks
    }
}

// The nodes of the row with an edge into the other.
pub fn leading(m: &Machine<'_>, row: Row, into: Row) -> Row
    ensures { (s : ℕ) → row_has result s ≡ (row_has row s && leads_into m.now.words.now (row_has into) s) }
{
    row.filter(|s| m.leads_into(s, into))
}

// A mark that one of the rows has and the other has not.
fn apart(a: Row, b: Row) -> Option<u16>
    ensures { TellsApart (row_has a) (row_has b) result }
{
    a.difference(b).union(b.difference(a)).lowest()
}

// A mark in which the signature of a node of the row differs from l.
fn unlike(m: &Machine<'_>, marks: &Marks, row: Row, l: Row) -> Option<u16>
    ensures { TellsUnlike m.now.words.now marks.now.of (row_has row) (row_has l) result }
{
    row.members()
        .rev()
        .find_map(|s| apart(m.marks_into(marks, s), l))
}

// Whether the row has at most one node.
fn at_most_one(row: Row) -> bool
    ensures { TellsOne (row_has row) result }
{
    match row.lowest() {
        None => true,
        Some(s) => row.without(s).is_empty(),
    }
}

// Whether the rows together have at most one node.
fn alone(rows: Sets) -> bool
    ensures { result ≡ true → Alone (row_has rows.first) (row_has rows.second) }
{
    if rows.first.is_empty() {
        return at_most_one(rows.second);
    }
    if rows.second.is_empty() {
        return at_most_one(rows.first);
    }
    false
}

// The last node of the row leads, if it has one.
fn led(m: &Machine<'_>, marks: &Marks, row: Row) -> Option<Lead>
    ensures { Led m.now.words.now marks.now.of row result }
{
    let s = row.highest()?;
    Some(Lead {
        marks: m.marks_into(marks, s),
        rest: row.without(s),
    })
}

// A mark that the edges of one node of a block lead to and those of another do not. A block of one node is not looked at.
pub fn splitter(ms: &Machines<'_>, marks: &Both<Marks>, rows: Sets) -> Option<u16>
    ensures { (m₁ m₂ : Members) (c : ℕ) → ((s : ℕ) → row_has rows.first s ≡ m₁ c s) → ((t : ℕ) → row_has rows.second t ≡ m₂ c t)
        → TellsMark ms.now.first.words.now ms.now.second.words.now m₁ m₂ marks.now.first.of marks.now.second.of c result }
{
    if alone(rows) {
        return None;
    }
    match led(&ms.first, &marks.first, rows.first) {
        // A match by hand: by `or_else` this return's goal stays open, since nothing is told of what its closure answers, even where the
        // closure has a clause of its own that says it.
        Some(lead) => match unlike(&ms.first, &marks.first, lead.rest, lead.marks) {
            Some(e) => Some(e),
            None => unlike(&ms.second, &marks.second, rows.second, lead.marks),
        },
        None => {
            let lead = led(&ms.second, &marks.second, rows.second)?;
            unlike(&ms.second, &marks.second, lead.rest, lead.marks)
        }
    }
}
