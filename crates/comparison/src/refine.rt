// Refinement: the nodes of two machines in blocks, split until no signal and no "some next of a block" splits one.
ghost use Rattle.std.specs.Prelude.{◌≡◌, ◌<◌, ◌≤◌};
ghost use Rattle.truth.specs.Passed as Passed;
ghost use Rattle.truth.specs.inner.Rows.{rows_has, leads_into};
ghost use Rattle.comparison.specs.inner.Bounded.{Bounded};
ghost use Rattle.comparison.specs.inner.Tables.{Room, SplitBlock};
ghost use Rattle.comparison.specs.inner.Stages.{Staged, Divided, Signalled, Settled, Partitioned};
ghost use Rattle.comparison.specs.inner.Signatures.{Turned};

use crate::blocks::Partition;
use crate::machines::{Both, Machines};
use crate::signatures::{leading, splitter};
use crate::sizes;
use crate::writing::{Line, Written};
use truth::structure::Machine;
use truth::tables::store;
use truth::{header, structure};

// `Staged` with 5 lines to spare holds between two steps. It is a clause, and no ghost field of a partition: it names the machines, and
// within a step fewer lines are to spare.
impl Partition {
    // One block of all the nodes, with the line that is true everywhere.
    fn begin(&mut self, ms: &Machines<'_>)
        requires accepted1 { Passed.machine_refusal ms.now.first.words.now ≡ 0 }
        requires accepted2 { Passed.machine_refusal ms.now.second.words.now ≡ 0 }
        requires bounded { Bounded ms.now.first.words.now ms.now.second.words.now }
        requires empty { self.old.lines.count ≡ 0 }
        ensures { Staged ms.now.first.words.now ms.now.second.words.now 5 self.new }
    {
        let everywhere = self.lines.push_first(header::signals(ms.first.words));
        let first = structure::node_row(header::nodes(ms.first.words));
        let second = structure::node_row(header::nodes(ms.second.words));
        store(&mut self.rows.first, 0, first);
        store(&mut self.rows.second, 0, second);
        self.line[0] = everywhere;
        self.count = 1;
    }

    // Splits every block by signal i. The parts are not looked at again.
    fn by_signal(&mut self, ms: &Machines<'_>, i: u16)
        requires staged { Staged ms.now.first.words.now ms.now.second.words.now 5 self.old }
        requires low { 1 ≤ i }
        requires high { i ≤ Passed.signals ms.now.first.words.now }
        ensures { Divided ms.now.first.words.now ms.now.second.words.now self.old self.new
            ((Passed.kripke ms.now.first.words.now).signal i) ((Passed.kripke ms.now.second.words.now).signal i) }
    {
        let x = ms.map(|m| structure::signal_row(m.words, i));
        for c in 0..self.count {
            if self.splits(c, x) {
                self.split_block(c, i, x);
            }
        }
    }

    // Splits every block by every signal.
    fn by_signals(&mut self, ms: &Machines<'_>)
        requires { Staged ms.now.first.words.now ms.now.second.words.now 5 self.old }
        ensures { Signalled ms.now.first.words.now ms.now.second.words.now self.new }
    {
        for i in 1..=header::signals(ms.first.words) {
            self.by_signal(ms, i);
        }
    }

    // Block c is split by "some next of block d", which the last line says.
    fn by_next(&mut self, ms: &Machines<'_>, c: u16, d: u16)
        requires block { d < self.old.count }
        requires room { Room self.old c }
        ensures { SplitBlock self.old self.new c self.old.lines.count
            (leads_into ms.now.first.words.now (rows_has self.old.rows.first d)) (leads_into ms.now.second.words.now (rows_has self.old.rows.second d)) }
    {
        let block = self.block(c);
        let into = self.block(d);
        let x = Both {
            first: leading(&ms.first, block.first, into.first),
            second: leading(&ms.second, block.second, into.second),
        };
        self.split_block(c, self.lines.count, x);
    }

    // One look at every block, also at those that come: a block is split by a mark in which two of its nodes differ, until there is none.
    fn turn(&mut self, ms: &Machines<'_>)
        requires { Staged ms.now.first.words.now ms.now.second.words.now 5 self.old }
        ensures { Turned ms.now.first.words.now ms.now.second.words.now self.old self.new }
    {
        let mut marks = self.marks();
        let mut c: u16 = 0;
        // A loop by hand: a block that was split is looked at again, and blocks come while it runs. A `for` would be no plainer.
        while c < self.count {
            match splitter(ms, &marks, self.block(c)) {
                None => c += 1,
                Some(e) => {
                    self.lines.push(Line::Next(self.line[e as usize - 1]));
                    self.by_next(ms, c, e - 1);
                    self.mark_block(self.count - 1, &mut marks);
                }
            }
        }
    }

    // Turns, until one splits no block. A loop by hand: a turn is repeated until it splits nothing; no index is counted.
    fn by_nexts(&mut self, ms: &Machines<'_>)
        requires { Signalled ms.now.first.words.now ms.now.second.words.now self.old }
        ensures { Settled ms.now.first.words.now ms.now.second.words.now self.new }
    {
        loop {
            let before = self.count;
            self.turn(ms);
            if self.count == before {
                return;
            }
        }
    }
}

// The nodes of two accepted machines in blocks that no signal and no "some next of a block" splits, each with its written line. One
// machine may be taken twice, whatever its number of nodes.
pub fn refine(m1: &[u16], m2: &[u16]) -> Partition
    requires accepted1 { Passed.machine_refusal m1.now ≡ 0 }
    requires accepted2 { Passed.machine_refusal m2.now ≡ 0 }
    requires bounded { Bounded m1.now m2.now }
    ensures { Partitioned m1.now m2.now result }
{
    let ms = Both {
        first: Machine::of(m1),
        second: Machine::of(m2),
    };
    let mut partition = Partition {
        rows: Both {
            first: [0; sizes::BLOCK_WORDS],
            second: [0; sizes::BLOCK_WORDS],
        },
        line: [0; sizes::BLOCK_PLACES],
        count: 0,
        lines: Written::new(),
    };
    partition.begin(&ms);
    partition.by_signals(&ms);
    partition.by_nexts(&ms);
    partition
}
