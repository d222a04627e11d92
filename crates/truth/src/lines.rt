// The row of one line, from whatever rows stand above it.
ghost use Rattle.std.specs.Prelude.{◌≡◌, not, ◌&&◌, ◌||◌, ℕ, ◌-◌, ◌*◌, ◌≤◌, length, leb};
ghost use Rattle.sheets.specs.Words.{within};
ghost use Rattle.sheets.specs.Machine as Machine;
ghost use Rattle.sheets.specs.Structures.{Automaton};
ghost use Rattle.sheets.specs.inner.Tabled.{Tabled};
ghost use Rattle.truth.specs.Sizes.{members_most, row_words};
ghost use Rattle.truth.specs.inner.Rows.{row_has, rows_has};
ghost use Rattle.truth.specs.inner.Pairs.{NoRow, NoTime};
ghost use Rattle.truth.specs.inner.Product.{line_at, argument_of};
ghost use Rattle.truth.specs.inner.OneLine.{Ready, LineReady, LineRow, Solvable, PathReady, PathRow, SolvedLine, node_set};

use crate::product::{Moves, Product, Variables};
use crate::rows::Row;
use crate::sizes::{PAIRS, SET_WORDS, TABLE_WORDS};
use crate::tables::{line_row, load};
use crate::{product, structure};
use sheets::lines::{Line, PathLine, decode};
use sheets::position::ByPosition;
use sheets::{format, machine, position};

// Accepted sheets, and the tables of the machine: the successors of each node, and its predecessors likewise. Who makes one asks that the
// sheets are accepted.
#[derive(Clone, Copy)]
pub struct Sheets<'a> {
    pub machine: &'a [u16],
    pub rules: &'a [u16],
    pub next: &'a [u64; TABLE_WORDS],
    pub back: &'a [u64; TABLE_WORDS],
    pub ghost ready: { Ready machine.now rules.now next.now back.now },
}

// The sets of pairs of a path line: the largest lasting set of good pairs, and the pairs that reach it.
#[derive(Clone, Copy)]
pub struct Sets {
    pub lasting: [u64; SET_WORDS],
    pub reached: [u64; SET_WORDS],
}

// The tables of a path line, solved.
#[derive(Clone, Copy)]
pub struct Solved {
    pub allow: [u64; TABLE_WORDS],
    pub sets: Sets,
    pub times: [u16; PAIRS],
}

impl Sheets<'_> {
    // All nodes of the machine.
    fn nodes(&self) -> Row
        ensures { (s : ℕ) → row_has result s ≡ node_set self.now.machine.now s }
    {
        let m = self.machine;
        structure::node_row(machine::nodes(m))
    }

    // Solves a path line with these argument lines for an automaton by position, with accepting and non-accepting exchanged for operation
    // 4. Where the automaton may go is written to empty moves, and times to a table of zeros, if it has room for all pairs: `solve` keeps
    // both, and `path_row` has room for no times, so the two lend them. `exchanged` is what operations 3 and 4 differ in, a value like the
    // automaton; a closure would say it less plainly.
    fn solve_with(
        &self,
        rows: &[u64],
        lines: [u16; format::VARIABLES],
        a: ByPosition,
        exchanged: bool,
        moves: &mut Moves,
        times: &mut [u16],
    ) -> Sets
        requires solvable { Solvable self.now.machine.now self.now.next.now self.now.back.now rows.now (line_at lines) a }
        requires count { moves.old.count ≡ a.count }
        requires none { (p : ℕ) → NoRow moves.old.allow p }
        requires times { NoTime times.old }
        ensures { (A : Automaton) (t : ℕ) (name : ℕ → ℕ) → Tabled A t name a → SolvedLine self.now.machine.now A t self.now.next.now rows.now (line_at lines) exchanged moves.new.allow result.lasting result.reached times.new }
    {
        let variables = Variables {
            rows,
            nodes: self.nodes(),
            lines,
            count: a.variables,
        };
        moves.set_masks(&variables, &a.masks);
        let goods = product::good_table(variables.nodes, a.count, a.accepting, exchanged);
        let product = Product {
            moves,
            next: self.next,
            back: self.back,
        };
        let lasting = product.trim(goods);
        let reached = product.grow(lasting, times);
        Sets { lasting, reached }
    }

    // Solves one with times, by which a path is found. What is solved is handed on as it came: a struct of it would be made at two places, by
    // the path call and by `path_row`, to be taken apart at one.
    pub fn solve(
        &self,
        rows: &[u64],
        lines: [u16; format::VARIABLES],
        a: ByPosition,
        exchanged: bool,
    ) -> Solved
        requires { Solvable self.now.machine.now self.now.next.now self.now.back.now rows.now (line_at lines) a }
        ensures { (A : Automaton) (t : ℕ) (name : ℕ → ℕ) → Tabled A t name a → SolvedLine self.now.machine.now A t self.now.next.now rows.now (line_at lines) exchanged result.allow result.sets.lasting result.sets.reached result.times }
    {
        let mut moves = Moves::none(a.count);
        let mut times = [0u16; PAIRS];
        let sets = self.solve_with(rows, lines, a, exchanged, &mut moves, &mut times);
        let allow = moves.allow;
        Solved { allow, sets, times }
    }

    // The nodes from which the path of a path line exists; for them no times are kept.
    fn path_row(&self, rows: &[u64], p: PathLine, exchanged: bool) -> Row
        requires { PathReady self.now.machine.now self.now.rules.now self.now.next.now self.now.back.now rows.now (argument_of p) p.automaton }
        ensures { PathRow self.now.machine.now self.now.rules.now rows.now (argument_of p) p.automaton exchanged (row_has result) }
    {
        let r = self.rules;
        let a = position::by_position(r, p.automaton);
        let mut moves = Moves::none(a.count);
        let mut times = [0u16; 1];
        let sets = self.solve_with(rows, p.lines, a, exchanged, &mut moves, &mut times);
        load(&sets.reached, 0)
    }

    // The nodes that the row of line k has not.
    fn negation_row(&self, rows: &[u64], k: u16) -> Row
        requires above { 1 ≤ k }
        requires room { row_words * k ≤ length rows.now }
        ensures { (s : ℕ) → row_has result s ≡ (leb s (Machine.nodes self.now.machine.now) && (within 1 members_most s && not (rows_has rows.now (k - 1) s))) }
    {
        self.nodes().difference(line_row(rows, k as usize))
    }

    // The nodes that the row of line i or that of line k has.
    fn either_row(&self, rows: &[u64], i: u16, k: u16) -> Row
        requires first { 1 ≤ i }
        requires first_room { row_words * i ≤ length rows.now }
        requires second { 1 ≤ k }
        requires second_room { row_words * k ≤ length rows.now }
        ensures { (s : ℕ) → row_has result s ≡ (leb s (Machine.nodes self.now.machine.now) && (within 1 members_most s && (rows_has rows.now (i - 1) s || rows_has rows.now (k - 1) s))) }
    {
        let some = line_row(rows, i as usize).union(line_row(rows, k as usize));
        self.nodes().intersection(some)
    }

    // The row of line j.
    pub fn row_of_line(&self, rows: &[u64], j: u16) -> Row
        requires { LineReady self.now.machine.now self.now.rules.now self.now.next.now self.now.back.now rows.now j }
        ensures { LineRow self.now.machine.now self.now.rules.now rows.now j (row_has result) }
    {
        let m = self.machine;
        let r = self.rules;
        let Some(line) = decode(r, j) else {
            return Row::empty();
        };
        match line {
            Line::Signal(i) => structure::signal_row(m, i),
            Line::Negation(k) => self.negation_row(rows, k),
            Line::Either(i, k) => self.either_row(rows, i, k),
            Line::SomePath(p) => self.path_row(rows, p, false),
            Line::SomePathNot(p) => self.path_row(rows, p, true),
        }
    }
}
