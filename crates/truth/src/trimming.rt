// The largest set of pairs each of which has a step into it: pairs without one are taken out, and then what had a step to them only.
ghost use Rattle.std.specs.Prelude.{◌≡◌, ◌↔◌, ℕ, ◌+◌, ◌-◌, ◌<◌, ◌≤◌, false, List, T};
ghost use Rattle.truth.specs.Sizes.{positions_most, members_most, cell};
ghost use Rattle.truth.specs.inner.Rows.{row_has, rows_has};
ghost use Rattle.truth.specs.inner.Pairs.{UpTo, Transposed, Before, NoRow, NoRows, Onward, Greatest};
ghost use Rattle.truth.specs.inner.Links.{Among};
ghost use Rattle.truth.specs.inner.Trimmed.{Meeting, Stuck, Taken, OwingTo, Moved, Trimmed, Started};

use crate::product::Product;
use crate::rows::Row;
use crate::sizes::{POSITIONS, SET_WORDS};
use crate::structure::together;
use crate::tables::{load, store};

// The pairs that are kept so far, and those taken out whose steps into them have not been looked at yet.
#[derive(Clone, Copy)]
struct Trimming {
    kept: [u64; SET_WORDS],
    gone: [u64; SET_WORDS],
}

impl Trimming {
    // Takes nodes out of row p of what is kept.
    fn take_out(&mut self, p: usize, lost: Row)
        requires { p < positions_most }
        ensures { Taken p (row_has lost) self.old.kept self.old.gone self.new.kept self.new.gone }
    {
        let row = load(&self.kept, p);
        store(&mut self.kept, p, row.difference(lost));
        let others = load(&self.gone, p);
        store(&mut self.gone, p, others.union(lost));
    }
}

// A pair (p, s) and the rows go from `stuck` down to a single step: a struct of the three would be made anew for each node, since s changes
// while the others stay.
impl Product<'_> {
    // Whether p may go at s to position k, whose row meets `to`, the successors of s.
    fn step_into(&self, to: Row, p: usize, k: usize, s: u16, xs: &[u64; SET_WORDS]) -> bool
        requires position { p < positions_most }
        requires next { k < positions_most }
        ensures { T result ↔ Meeting self.now.moves.now.allow xs.now (row_has to) p s k }
    {
        let may = load(&self.moves.allow, POSITIONS * p + k);
        may.has(s) && to.meets(load(xs, k))
    }

    // Whether it may go so to a position of `on`.
    fn steps_into(&self, to: Row, on: Row, p: usize, s: u16, xs: &[u64; SET_WORDS]) -> bool
        requires position { p < positions_most }
        requires positions { (u : ℕ) → T (row_has on u) → u ≤ positions_most }
        ensures { T result ↔ Among (row_has on) (Meeting self.now.moves.now.allow xs.now (row_has to) p s) }
    {
        on.members()
            .any(|u| self.step_into(to, p, u as usize - 1, s, xs))
    }

    // Whether a step from (p, s), where p may go to p2, leads into the rows: one to p2 is looked for first.
    fn steps_on(&self, p: usize, p2: usize, s: u16, xs: &[u64; SET_WORDS]) -> bool
        requires position { p < self.now.moves.now.count }
        requires next { p2 < self.now.moves.now.count }
        requires least { 1 ≤ s }
        requires most { s ≤ members_most }
        requires allowed { T (rows_has self.now.moves.now.allow (cell p p2) s) }
        ensures { T result ↔ Onward self.now.moves.now.allow self.now.next.now self.now.moves.now.count (rows_has xs.now) p s }
    {
        let next = self.next;
        let to = load(next, s as usize - 1);
        let there = load(xs, p2);
        if to.meets(there) {
            return true;
        }
        self.steps_into(to, load(&self.moves.onto, p), p, s, xs)
    }

    // The nodes of `look`, at which p may go to p2, from which no step from p leads into the rows.
    fn stuck(&self, p: usize, p2: usize, look: Row, xs: &[u64; SET_WORDS]) -> Row
        requires position { p < self.now.moves.now.count }
        requires next { p2 < self.now.moves.now.count }
        requires allowed { (s : ℕ) → T (row_has look s) → T (rows_has self.now.moves.now.allow (cell p p2) s) }
        ensures { Stuck self.now.moves.now.allow self.now.next.now self.now.moves.now.count xs.now p (row_has look) (row_has result) }
    {
        look.filter(|s| !self.steps_on(p, p2, s, xs))
    }

    // Takes out of row p what may go to p2 at a node of `pre` and has no step into what is kept.
    fn trim_row(&self, p: usize, p2: usize, pre: Row, pairs: &mut Trimming)
        requires position { p < self.now.moves.now.count }
        requires next { p2 < self.now.moves.now.count }
        ensures moved { Moved self.now.moves.now.allow self.now.next.now self.now.moves.now.count pairs.old.kept pairs.old.gone pairs.new.kept pairs.new.gone }
        ensures owing { OwingTo self.now.moves.now.allow self.now.next.now self.now.moves.now.count p2 (row_has pre) pairs.new.kept pairs.new.gone p }
    {
        let may = load(&self.moves.allow, POSITIONS * p + p2);
        let row = load(&pairs.kept, p);
        let look = row.intersection(may).intersection(pre);
        if look.is_empty() {
            return;
        }
        let lost = self.stuck(p, p2, look, &pairs.kept);
        pairs.take_out(p, lost);
    }

    // So for each row that `from` names.
    fn trim_into(&self, p2: usize, from: Row, pre: Row, pairs: &mut Trimming)
        requires next { p2 < self.now.moves.now.count }
        requires positions { (u : ℕ) → T (row_has from u) → u ≤ self.now.moves.now.count }
        ensures moved { Moved self.now.moves.now.allow self.now.next.now self.now.moves.now.count pairs.old.kept pairs.old.gone pairs.new.kept pairs.new.gone }
        ensures owing { (u : ℕ) → T (row_has from u) → OwingTo self.now.moves.now.allow self.now.next.now self.now.moves.now.count p2 (row_has pre) pairs.new.kept pairs.new.gone (u - 1) }
    {
        for u in from.members() {
            self.trim_row(u as usize - 1, p2, pre, pairs);
        }
    }

    // Empties row p2 of what is gone, and takes out what had a step to its nodes only; tells whether there were any.
    fn trim_from(&self, p2: usize, pairs: &mut Trimming) -> bool
        requires { p2 < self.now.moves.now.count }
        ensures trimmed { Trimmed self.now.moves.now.allow self.now.next.now self.now.back.now self.now.moves.now.count pairs.old.kept pairs.old.gone pairs.new.kept pairs.new.gone result }
        ensures none { result ≡ false → NoRow pairs.new.gone p2 }
    {
        let from = load(&pairs.gone, p2);
        if from.is_empty() {
            return false;
        }
        store(&mut pairs.gone, p2, Row::empty());
        let back = self.back;
        let pre = together(back, from);
        self.trim_into(p2, load(&self.moves.into, p2), pre, pairs);
        true
    }

    // So for each row of what is gone; tells whether there was anything to do.
    fn trim_round(&self, pairs: &mut Trimming) -> bool
        ensures trimmed { Trimmed self.now.moves.now.allow self.now.next.now self.now.back.now self.now.moves.now.count pairs.old.kept pairs.old.gone pairs.new.kept pairs.new.gone result }
        ensures none { result ≡ false → NoRows self.now.moves.now.count pairs.new.gone }
    {
        let mut changed = false;
        for k in 0..self.moves.count {
            if self.trim_from(k, pairs) {
                changed = true;
            }
        }
        changed
    }

    // For each row, what is before it.
    fn befores(&self, xs: &[u64; SET_WORDS]) -> [u64; SET_WORDS]
        ensures { (k s : ℕ) → k < self.now.moves.now.count → T (rows_has result k s) ↔ Before self.now.back.now (rows_has xs.now k) s }
    {
        let back = self.back;
        let mut out = [0u64; SET_WORDS];
        for k in 0..self.moves.count {
            let row = load(xs, k);
            let pre = together(back, row);
            store(&mut out, k, pre);
        }
        out
    }

    // The nodes at which p may go to a position of `on` whose row of the table has them. `steps_into` asks at one node alone, and stops where
    // it finds a step.
    fn goes_on(&self, table: &[u64; SET_WORDS], on: Row, p: usize) -> Row
        requires position { p < positions_most }
        requires positions { (u : ℕ) → T (row_has on u) → u ≤ positions_most }
        ensures { (s : ℕ) → T (row_has result s) ↔ Among (row_has on) (λ k. T (rows_has self.now.moves.now.allow (cell p k) s) × T (rows_has table.now k s)) }
    {
        let mut out = Row::empty();
        for u in on.members() {
            let k = u as usize - 1;
            let may = load(&self.moves.allow, POSITIONS * p + k);
            let there = load(table, k);
            out = out.union(may.intersection(there));
        }
        out
    }

    // Takes out of row p what has nothing ahead.
    fn trim_first_row(&self, table: &[u64; SET_WORDS], p: usize, pairs: &mut Trimming)
        requires { p < self.now.moves.now.count }
        ensures { (start : List ℕ) → ((k s : ℕ) → k < self.now.moves.now.count → T (rows_has table.now k s) ↔ Before self.now.back.now (rows_has start k) s) → Started self.now.moves.now.allow self.now.back.now self.now.moves.now.count p start pairs.old.kept pairs.old.gone → Started self.now.moves.now.allow self.now.back.now self.now.moves.now.count (p + 1) start pairs.new.kept pairs.new.gone }
    {
        let on = self.goes_on(table, load(&self.moves.onto, p), p);
        let row = load(&pairs.kept, p);
        let lost = row.difference(on);
        pairs.take_out(p, lost);
    }

    // Takes out of each row what has nothing ahead in the first rows.
    fn trim_first(&self, pairs: &mut Trimming)
        requires { (p : ℕ) → NoRow pairs.old.gone p }
        ensures { Started self.now.moves.now.allow self.now.back.now self.now.moves.now.count self.now.moves.now.count pairs.old.kept pairs.new.kept pairs.new.gone }
    {
        let table = self.befores(&pairs.kept);
        for p in 0..self.moves.count {
            self.trim_first_row(&table, p, pairs);
        }
    }

    // The largest set of the pairs of `xs` each of which has a step into it.
    pub fn trim(&self, xs: [u64; SET_WORDS]) -> [u64; SET_WORDS]
        ensures { (n : ℕ) → Transposed n self.now.next.now self.now.back.now → UpTo n self.now.moves.now.count xs → Greatest self.now.moves.now.allow self.now.next.now self.now.moves.now.count xs result }
    {
        let mut pairs = Trimming {
            kept: xs,
            gone: [0; SET_WORDS],
        };
        self.trim_first(&mut pairs);
        // Rounds follow each other until one finds nothing to do: there is no index to count.
        while self.trim_round(&mut pairs) {}
        pairs.kept
    }
}
