// The machine's structure in rows, read from the lent words: the nodes with an edge into a row, the nodes of a signal, the start nodes.
ghost use Rattle.std.specs.Prelude.{◌≡◌, ◌↔◌, Bool, false, ◌&&◌, ℕ, ◌-◌, ◌*◌, ◌≤◌, length, T, eqb, leb};
ghost use Rattle.sheets.specs.Words.{within};
ghost use Rattle.sheets.specs.Machine.{nodes, kripke, signal_at, start_flag, machine_refusal};
ghost use Rattle.sheets.specs.Format.{plain, edges_from, edge_words};
ghost use Rattle.truth.specs.Sizes.{members_most, row_words, table_rows, table_words};
ghost use Rattle.truth.specs.inner.Rows.{row_has, rows_has, leads_into};
ghost use Rattle.truth.specs.inner.Marks.{marks_into};
ghost use Rattle.truth.specs.inner.Targets.{links_end, TargetsTaken, Stopped, TailOf, chain_leads};
ghost use Rattle.truth.specs.inner.Pairs.{Before};
ghost use Rattle.truth.specs.inner.Links.{AddedBefore};
ghost use Rattle.truth.specs.inner.Tested.{Tests};

use crate::marks::Marks;
use crate::rows::Row;
use crate::sizes::{NODE_PLACES, TABLE_ROWS, TABLE_WORDS};
use crate::tables::{add, line_row, load, store};
use sheets::along::Gathers;
use sheets::walker::{Record, Walker};
use sheets::{along, format, machine};

// A tail that chains share: the nodes that the chain from record `at` on leads to. Every chain ends at record 0, from which on there is
// nothing, so a machine with no shared tail has the tail from there: an Option would add a case to each walk and take none away.
#[derive(Clone, Copy)]
pub struct Tail {
    pub row: Row,
    pub at: u64,
}

// A machine sheet, with a tail that its chains share. Any sheet has the tail from record 0 on; one from another record on is known of an
// accepted sheet alone.
#[derive(Clone, Copy)]
pub struct Machine<'a> {
    pub words: &'a [u16],
    pub tail: Tail,
    pub ghost shared: { TailOf words.now tail },
}

// Links are words, so below this number, which stands for no link yet: an Option would add a case to `done`, which compares two numbers at
// each record.
const LINKS_END: u64 = 65536;

// What is gathered of a chain: the targets so far, the record at which the walk is left, and the link of the last record. 0 ends a chain, as in
// the format, so a walk that is left nowhere else has it as `stop`. The fields leave no gap between them, which would be copied at each step.
#[derive(Clone, Copy)]
struct Targets {
    row: Row,
    stop: u64,
    link: u64,
}

fn no_tail() -> Tail
    ensures at { result.at ≡ 0 }
    ensures none { (t : ℕ) → row_has result.row t ≡ false }
{
    let row = Row::empty();
    Tail { row, at: 0 }
}

// No target yet, and no link that is one.
fn no_targets(stop: u64) -> Targets
    ensures stop { result.stop ≡ stop }
    ensures link { result.link ≡ links_end }
    ensures none { (t : ℕ) → row_has result.row t ≡ false }
{
    let row = Row::empty();
    Targets {
        row,
        stop,
        link: LINKS_END,
    }
}

impl Gathers for Targets {
    ghost Takes = { TargetsTaken };

    ghost IsDone = { Stopped };

    // One record's target more.
    fn take(self, found: Record) -> Targets {
        Targets {
            row: self.row.with(found.first),
            stop: self.stop,
            link: found.next as u64,
        }
    }

    // Whether the next record is the one at which the walk is left.
    fn done(&self) -> bool {
        self.link == self.stop
    }
}

// A walker along the chain of edges from record x on, of which `left` may be read.
fn edges_walker<'a>(m: &'a [u16], x: u16, left: u16) -> Walker<'a>
    ensures words { result.words.now ≡ m.now }
    ensures base { result.base ≡ edges_from plain (nodes m.now) }
    ensures width { result.width ≡ edge_words }
    ensures at { result.at ≡ x }
    ensures left { result.left ≡ left }
{
    Walker {
        words: m,
        base: machine::edges_from(m),
        width: format::EDGE_WORDS,
        at: x,
        left,
    }
}

// Where the chains of the nodes may have become one: the highest record that comes after the first ones of a chain, as many as there are
// records for each node, or 0, at which chains end. It only saves work, and any record would do. The remainder makes 0 of what is no link.
fn joint(m: &[u16]) -> u16 {
    let n = machine::nodes(m);
    let Some(share) = machine::edges(m).checked_div(n) else {
        return 0;
    };
    let none = no_targets(0);
    let last = (1..=n)
        .map(|s| along::along(edges_walker(m, machine::first_edge(m, s), share), none).link)
        .max();
    (last.unwrap_or(0) % LINKS_END) as u16
}

impl<'a> Machine<'a> {
    // A sheet whose chains are read to their ends: any sheet, also one that is not accepted.
    pub fn without_tail(words: &'a [u16]) -> Machine<'a>
        ensures words { result.words.now ≡ words.now }
        ensures end { result.tail.at ≡ 0 }
    {
        Machine {
            words,
            tail: no_tail(),
        }
    }

    // An accepted sheet, with a tail that its chains share, if there is one.
    pub fn of(words: &'a [u16]) -> Machine<'a>
        requires { machine_refusal words.now ≡ 0 }
        ensures { result.words.now ≡ words.now }
    {
        let at = joint(words);
        let alone = Machine::without_tail(words);
        if at > machine::edges(words) {
            return alone;
        }
        let row = alone.chain_row(at);
        Machine {
            words,
            tail: Tail { row, at: at as u64 },
        }
    }

    // The machine with its tail, if record x is one of e; a chain from elsewhere is read to its end.
    fn for_chain(&self, x: u16, e: u16) -> Machine<'a>
        ensures words { result.words.now ≡ self.now.words.now }
        ensures same { x ≤ e → result.tail ≡ self.now.tail }
        ensures inside { 1 ≤ result.tail.at → x ≤ e }
    {
        if x <= e {
            return *self;
        }
        Machine::without_tail(self.words)
    }

    // The nodes that the chain from record x on leads to.
    fn chain_row(&self, x: u16) -> Row
        ensures { (t : ℕ) → row_has result t ≡ (within 1 members_most t && chain_leads self.now.words.now x t) }
    {
        if x as u64 == self.tail.at {
            return self.tail.row;
        }
        let e = machine::edges(self.words);
        let known = self.for_chain(x, e);
        let none = no_targets(known.tail.at);
        let found = along::along(edges_walker(self.words, x, e), none);
        let row = found.row;
        if found.link == found.stop {
            let rest = known.tail.row;
            return row.union(rest);
        }
        row
    }

    // The nodes that the edges of node s lead to.
    fn successor_row(&self, s: u16) -> Row
        ensures { (t : ℕ) → row_has result t ≡ (within 1 members_most t && (kripke self.now.words.now).edge s t) }
    {
        self.chain_row(machine::first_edge(self.words, s))
    }

    // Some edge of node s leads into the row.
    pub fn leads_into(&self, s: u16, row: Row) -> bool
        ensures { result ≡ leads_into self.now.words.now (row_has row) s }
    {
        self.successor_row(s).meets(row)
    }

    // The marks that the edges of node s lead to, where `of` has the mark of each node and `all` has at least these marks. No mark is read when
    // all are found.
    pub fn marks_among(&self, of: &[Option<u16>; NODE_PLACES], all: Row, s: u16) -> Row
        requires { (e : ℕ) → T (marks_into self.now.words.now of.now s e) → T (row_has all e) }
        ensures { (e : ℕ) → row_has result e ≡ marks_into self.now.words.now of.now s e }
    {
        let mut out = Row::empty();
        let next = self.successor_row(s);
        for t in next.members() {
            if all.difference(out).is_empty() {
                return out;
            }
            match of[t as usize] {
                Some(e) => out = out.with(e),
                None => {}
            }
        }
        out
    }

    // The marks that the edges of node s lead to, of all that there are.
    pub fn marks_into(&self, marks: &Marks, s: u16) -> Row
        ensures { (e : ℕ) → row_has result e ≡ marks_into self.now.words.now marks.now.of s e }
    {
        self.marks_among(&marks.of, marks.all, s)
    }
}

// The nodes of 1 to n that pass the test. `Row::filter` begins with a row, and the first one, of all nodes, is made by this.
fn nodes_where<F: Fn(u16) -> bool>(n: u16, test: F) -> Row
    requires { F.IsAlwaysCallable test }
    ensures { (p : ℕ → Bool) → Tests n F.Fn test p → (s : ℕ) → row_has result s ≡ (leb s n && (within 1 members_most s && p s)) }
{
    let mut out = Row::empty();
    for s in 1..=n {
        if test(s) {
            out = out.with(s);
        }
    }
    out
}

// The nodes 1 to n.
pub fn node_row(n: u16) -> Row
    ensures { (s : ℕ) → row_has result s ≡ (leb s n && within 1 members_most s) }
{
    nodes_where(n, |_| true)
}

// The nodes where signal i is set.
pub fn signal_row(m: &[u16], i: u16) -> Row
    ensures { (s : ℕ) → row_has result s ≡ (leb s (nodes m.now) && (within 1 members_most s && signal_at m.now i s)) }
{
    nodes_where(machine::nodes(m), |s| machine::signal_at(m, i, s))
}

// The start nodes.
pub fn start_row(m: &[u16]) -> Row
    ensures { (s : ℕ) → row_has result s ≡ (leb s (nodes m.now) && (within 1 members_most s && eqb (start_flag m.now s) 1)) }
{
    nodes_where(machine::nodes(m), |s| machine::start_flag(m, s) == 1)
}

// Writes the successors of each node s at row s - 1 of the lent table. A returned table would take more of the stack: it has a place beside that
// of the variable that it goes to.
pub fn write_successors(m: &[u16], out: &mut [u64; TABLE_WORDS])
    ensures { (s t : ℕ) → 1 ≤ s → s ≤ nodes m.now → s ≤ table_rows → rows_has out.new (s - 1) t ≡ (within 1 members_most t && (kripke m.now).edge s t) }
{
    let n = machine::nodes(m).min(TABLE_ROWS);
    let alone = Machine::without_tail(m);
    for s in 0..n {
        let row = alone.successor_row(s + 1);
        store(out, s as usize, row);
    }
}

// The same as a table.
pub fn successors(m: &[u16]) -> [u64; TABLE_WORDS]
    ensures { (s t : ℕ) → 1 ≤ s → s ≤ nodes m.now → s ≤ table_rows → rows_has result (s - 1) t ≡ (within 1 members_most t && (kripke m.now).edge s t) }
{
    let mut out = [0u64; TABLE_WORDS];
    write_successors(m, &mut out);
    out
}

// Node s more in the row of each node of the set.
fn add_before(set: Row, s: u16, out: &mut [u64; TABLE_WORDS])
    requires { length out.old ≡ table_words }
    ensures { AddedBefore (row_has set) s out.old out.new }
{
    for u in set.members() {
        add(out, u as usize, s);
    }
}

// Writes the predecessors of each node t at row t - 1, whatever the lent table had: each node goes to the rows of its successors.
pub fn write_predecessors(next: &[u64; TABLE_WORDS], n: u16, out: &mut [u64; TABLE_WORDS])
    requires { n ≤ members_most }
    ensures { (s t : ℕ) → 1 ≤ t → t ≤ n → rows_has out.new (t - 1) s ≡ (leb s n && (within 1 members_most s && rows_has next.now (s - 1) t)) }
{
    *out = [0u64; TABLE_WORDS];
    for s in 0..n {
        let row = load(next, s as usize);
        add_before(row, s + 1, out);
    }
}

// The same as a table.
pub fn predecessors(next: &[u64; TABLE_WORDS], n: u16) -> [u64; TABLE_WORDS]
    requires { n ≤ members_most }
    ensures { (s t : ℕ) → 1 ≤ t → t ≤ n → rows_has result (t - 1) s ≡ (leb s n && (within 1 members_most s && rows_has next.now (s - 1) t)) }
{
    let mut out = [0u64; TABLE_WORDS];
    write_predecessors(next, n, &mut out);
    out
}

// The rows of a table that a set names, together: row u - 1 for each u of the set.
pub fn together(table: &[u64], set: Row) -> Row
    requires { (u : ℕ) → T (row_has set u) → row_words * u ≤ length table.now }
    ensures { (s : ℕ) → T (row_has result s) ↔ Before table.now (row_has set) s }
{
    let mut out = Row::empty();
    for u in set.members() {
        out = out.union(line_row(table, u as usize));
    }
    out
}
