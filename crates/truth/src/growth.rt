// The pairs from which steps lead into a set: the set grows by what its newest pairs are stepped to from, until nothing is new.
ghost use Rattle.std.specs.Prelude.{◌≡◌, ◌&&◌, ℕ, ◌+◌, ◌<◌, ◌≤◌, List, eqb};
ghost use Rattle.truth.specs.Sizes.{positions_most, table_rows};
ghost use Rattle.truth.specs.inner.Rows.{row_has};
ghost use Rattle.truth.specs.inner.Pairs.{UpTo, Transposed, NoRows, Timed, NoTime, Least};
ghost use Rattle.truth.specs.inner.Growing.{TimePut, Spread, enters, Turn, last_time, left, Turns};

use crate::product::{Product, pair_place};
use crate::rows::Row;
use crate::sizes::{PAIRS, POSITIONS, SET_WORDS};
use crate::structure::together;
use crate::tables::{load, store};

// Times go to a slice that has room for all pairs or keeps none; it is handed on beside the pairs. An Option of the table would be taken apart
// and put together again at each call down to here, and in the struct each function would have to say of the slice's reference that it stays
// the same one: both are no plainer.

// Writes the time at the nodes of the row, at position p.
fn put_time(row: Row, p: usize, time: u16, times: &mut [u16])
    requires position { p < positions_most }
    requires timed { Timed times.old }
    ensures { TimePut (row_has row) p time times.old times.new }
{
    for s in row.members() {
        times[pair_place(p, s)] = time;
    }
}

// The pairs that are met so far, those of them from whose predecessors nothing was added yet, and the time of those that are met in this turn.
#[derive(Clone, Copy)]
struct Growth {
    reached: [u64; SET_WORDS],
    fresh: [u64; SET_WORDS],
    time: u16,
}

impl Product<'_> {
    // Adds the pairs at p of the nodes `prev` at which the automaton may go to p2.
    fn grow_one(&self, p: usize, p2: usize, prev: Row, pairs: &mut Growth, times: &mut [u16])
        requires position { p < positions_most }
        requires next { p2 < positions_most }
        ensures spread { Spread (λ q s. eqb q p && enters self.now.moves.now.allow p2 (row_has prev) p s) pairs.old.time pairs.old.reached pairs.old.fresh times.old pairs.new.reached pairs.new.fresh times.new }
        ensures time { pairs.new.time ≡ pairs.old.time }
    {
        let here = load(&pairs.reached, p);
        let extra = load(&self.moves.allow, POSITIONS * p + p2)
            .intersection(prev)
            .difference(here);
        if extra.is_empty() {
            return;
        }
        store(&mut pairs.reached, p, here.union(extra));
        let fresh = load(&pairs.fresh, p);
        store(&mut pairs.fresh, p, fresh.union(extra));
        if times.len() < PAIRS {
            return;
        }
        put_time(extra, p, pairs.time, times);
    }

    // Adds the pairs with a step to a new pair at p2.
    fn grow_from(&self, p2: usize, pairs: &mut Growth, times: &mut [u16])
        requires { p2 < self.now.moves.now.count }
        ensures turn { Turn self.now.moves.now.allow self.now.back.now self.now.moves.now.count p2 pairs.old.time pairs.old.reached pairs.old.fresh times.old pairs.new.reached pairs.new.fresh times.new }
        ensures time { pairs.new.time ≡ pairs.old.time }
    {
        let back = self.back;
        let prev = together(back, load(&pairs.fresh, p2));
        store(&mut pairs.fresh, p2, Row::empty());
        let from = load(&self.moves.into, p2);
        for u in from.members() {
            self.grow_one(u as usize - 1, p2, prev, pairs, times);
        }
    }

    // A turn for each position with a new pair, each with a time of its own. `trim_round` goes over the positions likewise, but has no time to
    // count: a loop for both would take the turn as a closure over the pairs, which is no plainer.
    fn grow_round(&self, pairs: &mut Growth, times: &mut [u16])
        requires { pairs.old.time + left self.now.moves.now.count pairs.old.reached pairs.old.fresh ≤ last_time }
        ensures turns { Turns self.now.moves.now.allow self.now.back.now self.now.moves.now.count pairs.old.time pairs.new.time pairs.old.reached pairs.old.fresh times.old pairs.new.reached pairs.new.fresh times.new }
        ensures done { pairs.new.time ≡ pairs.old.time → NoRows self.now.moves.now.count pairs.new.fresh }
    {
        for k in 0..self.moves.count {
            if !load(&pairs.fresh, k).is_empty() {
                self.grow_from(k, pairs, times);
                pairs.time += 1;
            }
        }
    }

    // The pairs from which steps lead into those of `xs`. The time at which each other pair is met goes to `times`, if it has room for all
    // pairs.
    pub fn grow(&self, xs: [u64; SET_WORDS], times: &mut [u16]) -> [u64; SET_WORDS]
        requires { NoTime times.old }
        ensures { (n : ℕ) (next : List ℕ) → Transposed n next self.now.back.now → UpTo n table_rows self.now.moves.now.allow → UpTo n self.now.moves.now.count xs → Least self.now.moves.now.allow next self.now.moves.now.count xs result times.new }
    {
        let mut pairs = Growth {
            reached: xs,
            fresh: xs,
            time: 1,
        };
        // Rounds follow each other until one meets no pair, and so takes no time: there is no index to count.
        loop {
            let time = pairs.time;
            self.grow_round(&mut pairs, times);
            if pairs.time == time {
                return pairs.reached;
            }
        }
    }
}
