// A trail through the pairs of a product that shows a path: down the times into the lasting set, and there until a pair comes back.
ghost use Rattle.std.specs.Prelude.{ℕ, ◌<◌, ◌≤◌, T, MatchOption};
ghost use Rattle.truth.specs.Sizes.{positions_most, members_most};
ghost use Rattle.truth.specs.inner.Rows.{row_has, rows_has};
ghost use Rattle.truth.specs.inner.Pairs.{PairStep};
ghost use Rattle.truth.specs.inner.Trails.{Looped, Traceable, Earlier, Wanted, NoStep, placed, Advances};

use crate::lines::Solved;
use crate::path::Shown;
use crate::product::pair_place;
use crate::rows::Row;
use crate::sizes::{PAIRS, POSITIONS, SET_WORDS, TABLE_WORDS};
use crate::tables::load;

// The pairs of the list, by node and position, with their number and the place that the last one goes back to; places count from 1. A node
// fits a byte. The two numbers stand between the arrays, so that each of them is moved by itself; the arrays have room for all pairs, since
// nothing is kept on the heap.
#[derive(Clone, Copy)]
pub struct Trail {
    pub nodes: [u8; PAIRS],
    pub shown: Shown,
    pub positions: [u16; PAIRS],
}

// A pair that the tables have a place for.
#[derive(Clone, Copy)]
struct Pair {
    position: u16,
    node: u16,
    ghost position_below: { position < positions_most },
    ghost node_from: { 1 ≤ node },
    ghost node_to: { node ≤ members_most },
}

// What a trail goes by: the tables of a solved path line, the successors of each node, how many positions and nodes there are, and a node
// from which the path exists, so that the tables show a path.
#[derive(Clone, Copy)]
pub struct Trace<'a> {
    pub solved: &'a Solved,
    pub next: &'a [u64; TABLE_WORDS],
    pub count: usize,
    pub nodes: u16,
    pub start: u16,
    pub ghost few: { count ≤ positions_most },
    pub ghost traceable: { ∥ Traceable solved.now.allow next.now count nodes solved.now.sets.lasting solved.now.sets.reached solved.now.times start ∥₁ },
}

impl Trace<'_> {
    // The lowest node of the row, of those whose time at position k is before the one that is told.
    fn earlier(&self, row: Row, k: usize, before: Option<u16>) -> Option<u16>
        requires { k < positions_most }
        ensures { MatchOption result ((v : ℕ) → T (row_has row v) → Earlier self.now.solved.now.times before k v → ⊥) (λ v. T (row_has row v) × Earlier self.now.solved.now.times before k v × ((s : ℕ) → T (row_has row s) → Earlier self.now.solved.now.times before k s → v ≤ s)) }
    {
        let Some(time) = before else {
            return row.lowest();
        };
        let times = &self.solved.times;
        row.members().find(|v| times[pair_place(k, *v)] < time)
    }

    // A pair at position k of the set, with a time before the one that is told, that a step leads to from the last one. Whether the automaton may
    // go there is asked first: at the other positions no row is looked through. Positions are few, so k is narrowed to a word.
    fn step_to(
        &self,
        last: Pair,
        k: usize,
        set: &[u64; SET_WORDS],
        before: Option<u16>,
    ) -> Option<Pair>
        requires { k < self.now.count }
        ensures { MatchOption result (NoStep self.now.solved.now.allow self.now.next.now self.now.count last.position last.node (Wanted set.now self.now.solved.now.times before) k) (λ pair. PairStep self.now.solved.now.allow self.now.next.now self.now.count last.position last.node pair.position pair.node × Wanted set.now self.now.solved.now.times before pair.position pair.node) }
    {
        let next = self.next;
        let solved = self.solved;
        let allowed = load(&solved.allow, POSITIONS * last.position as usize + k);
        if !allowed.has(last.node) {
            return None;
        }
        let to = load(next, last.node as usize - 1);
        let row = to.intersection(load(set, k));
        let v = self.earlier(row, k, before)?;
        Some(Pair {
            position: k as u16,
            node: v,
        })
    }

    // A pair of the set, with a time before the one that is told, that a step leads to from the last one. There is one.
    fn step(&self, last: Pair, set: &[u64; SET_WORDS], before: Option<u16>) -> Pair
        requires { ∥ ((q v : ℕ) × PairStep self.now.solved.now.allow self.now.next.now self.now.count last.position last.node q v × Wanted set.now self.now.solved.now.times before q v) ∥₁ }
        ensures stepped { PairStep self.now.solved.now.allow self.now.next.now self.now.count last.position last.node result.position result.node }
        ensures wanted { Wanted set.now self.now.solved.now.times before result.position result.node }
    {
        let found = (0..self.count).find_map(|k| self.step_to(last, k, set, before));
        let Some(pair) = found else { unreachable!() };
        pair
    }

    // The pair after the last one.
    fn advance(&self, last: Pair) -> Pair
        requires position { last.position < self.now.count }
        requires reached { T (rows_has self.now.solved.now.sets.reached last.position last.node) }
        ensures { Advances self.now.solved.now.allow self.now.next.now self.now.count self.now.solved.now.sets.lasting self.now.solved.now.sets.reached self.now.solved.now.times last.position last.node result.position result.node }
    {
        let solved = self.solved;
        if load(&solved.sets.lasting, last.position as usize).has(last.node) {
            return self.step(last, &solved.sets.lasting, None);
        }
        let time = solved.times[pair_place(last.position as usize, last.node)];
        self.step(last, &solved.sets.reached, Some(time))
    }

    // From the pair (0, start) on each pair is listed, until one comes that is listed already. Nodes are few, so each is narrowed to a byte.
    pub fn trail(&self) -> Trail
        ensures { Looped self.now.solved.now.allow self.now.next.now self.now.count self.now.nodes self.now.solved.now.sets.lasting self.now.start (placed result.nodes) (placed result.positions) result.shown.length result.shown.back }
    {
        let s = self.start;
        let mut nodes = [0u8; PAIRS];
        let mut positions = [0u16; PAIRS];
        // By pair its place, and 0 for one that is not listed yet: an Option for each pair would take twice the room on the stack, whose size
        // the C header names.
        let mut places = [0u16; PAIRS];
        nodes[0] = s as u8;
        places[s as usize - 1] = 1;
        let mut len: u16 = 1;
        let mut last = Pair {
            position: 0,
            node: s,
        };
        // Pairs follow each other until one comes back: there is no index to count.
        loop {
            last = self.advance(last);
            let at = pair_place(last.position as usize, last.node);
            let back = places[at];
            if back != 0 {
                return Trail {
                    nodes,
                    shown: Shown { length: len, back },
                    positions,
                };
            }
            nodes[len as usize] = last.node as u8;
            positions[len as usize] = last.position;
            len += 1;
            places[at] = len;
        }
    }
}
