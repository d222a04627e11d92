// The path call: a list of nodes and states that shows a path for a true path line at a node.
ghost use Rattle.std.specs.Prelude.{◌≡◌, min, ◌<◌, ◌≤◌, ◌++◌, length, drop, slice_index, EachIndex};
ghost use Rattle.sheets.specs.CheckAnswers.{Answered};
ghost use Rattle.truth.specs.Sizes.{positions_most, pairs_most};
ghost use Rattle.truth.specs.inner.OneLine.{Successors, Ready};
ghost use Rattle.truth.specs.inner.Product.{argument_of};
ghost use Rattle.truth.specs.Path as Path;
ghost use Rattle.truth.specs.PathAnswers.{length_of, PathAnswer};
ghost use Rattle.truth.specs.inner.Made.{MadeFor};
ghost use Rattle.truth.specs.inner.Shows.{Askable, ShowsLine};

use crate::labelling::label_lines;
use crate::lines::Sheets;
use crate::sizes::{LINES_WORDS, PAIRS, TABLE_WORDS};
use crate::structure;
use crate::tables::load;
use crate::trail::Trace;
use sheets::lines::{PathLine, path_line, read_operation};
use sheets::operation::Operation;
use sheets::refusal::{CallQuestion, Refusal};
use sheets::{checks, format, machine, position, rules};

// A path that is shown: so many pairs, the last of which goes to the pair at the back index.
#[derive(Clone, Copy, Debug, PartialEq, Eq)]
pub struct Shown {
    pub length: u16,
    pub back: u16,
}

// A list that was made, and the answer; a node fits a byte. The answer stands between the arrays: so each of them is moved by itself,
// and the stack needs no copy of the whole.
#[derive(Clone, Copy)]
pub struct Made {
    pub nodes: [u8; PAIRS],
    pub answer: Result<Option<Shown>, Refusal>,
    pub states: [u16; PAIRS],
}

// A path call: both sheets, the line that is asked about, and the node.
#[derive(Clone, Copy)]
pub struct Call<'a> {
    pub machine: &'a [u16],
    pub rules: &'a [u16],
    pub line: u16,
    pub node: u16,
}

// The asked line of an accepted call: the call, the rows of the lines above, the line taken apart, and whether accepting and non-accepting
// states are exchanged, as operation 4 has them: a value, as `Sheets::solve_with` says.
#[derive(Clone, Copy)]
struct AskedLine<'a> {
    call: Call<'a>,
    rows: &'a [u64],
    line: PathLine,
    exchanged: bool,
    ghost askable: { Askable call.machine.now call.rules.now rows.now (argument_of line) line.automaton call.node },
}

// Each position of the list becomes the state at that position, by its record number.
fn name_states(states: &[u16; format::CHAINED], list: &mut [u16])
    requires { EachIndex list.old (λ i. slice_index list.old i < positions_most) }
    ensures { EachIndex list.old (λ i. slice_index list.new i ≡ slice_index states.now (slice_index list.old i)) }
{
    for place in list.iter_mut() {
        *place = states[*place as usize];
    }
}

impl Call<'_> {
    // The number of the asked line. Line 0 means the last line: the C interface has it so.
    fn asked(&self) -> u16
        ensures { result ≡ Path.asked self.now.rules.now self.now.line }
    {
        if self.line == 0 {
            rules::lines(self.rules)
        } else {
            self.line
        }
    }

    // The questions of a path call, in order, for a list with room for so many pairs.
    fn check_path(&self, room: usize) -> Result<(), Refusal>
        ensures { Answered (Path.path_questions self.now.machine.now self.now.rules.now self.now.line self.now.node room) result }
    {
        checks::check_sheets(self.machine, self.rules)?;
        if !self.q18() {
            return Err(Refusal::Call(CallQuestion::PathLine));
        }
        if !self.q19(room) {
            return Err(Refusal::Call(CallQuestion::PathSpace));
        }
        Ok(())
    }

    fn q18(&self) -> bool
        ensures { result ≡ Path.q18 self.now.machine.now self.now.rules.now self.now.line self.now.node }
    {
        let r = self.rules;
        let j = self.asked();
        if !sheets::words::within(1, rules::lines(r), j) {
            return false;
        }
        if !sheets::words::within(1, machine::nodes(self.machine), self.node) {
            return false;
        }
        read_operation(r, j).is_ok_and(|operation| operation.is_path())
    }

    fn q19(&self, room: usize) -> bool
        ensures { result ≡ Path.q19 self.now.machine.now self.now.rules.now self.now.line room }
    {
        let r = self.rules;
        let p = path_line(r, self.asked());
        let n = machine::nodes(self.machine) as usize;
        let t = position::state_count(r, p.automaton) as usize;
        n * t <= room
    }

    // Labels the lines above the asked one and makes the list for it, or says why there is none.
    fn make(&self, room: usize) -> Made
        ensures { MadeFor self.now.machine.now self.now.rules.now self.now.line self.now.node room result.nodes result.states result.answer }
    {
        if let Err(refusal) = self.check_path(room) {
            return Made {
                nodes: [0u8; PAIRS],
                answer: Err(refusal),
                states: [0u16; PAIRS],
            };
        }
        let m = self.machine;
        let r = self.rules;
        let j = self.asked();
        let mut rows = [0u64; LINES_WORDS];
        label_lines(m, r, &mut rows, j - 1);
        let line = path_line(r, j);
        let exchanged = read_operation(r, j) == Ok(Operation::SomePathNot);
        let asked = AskedLine {
            call: *self,
            rows: &rows,
            line,
            exchanged,
        };
        asked.show_line()
    }

    // What is made for a list with space for so many pairs: none is longer than PAIRS, so that more room changes no answer.
    pub fn make_within(&self, space: usize) -> Made
        ensures { MadeFor self.now.machine.now self.now.rules.now self.now.line self.now.node (min space pairs_most) result.nodes result.states result.answer }
    {
        self.make(space.min(PAIRS))
    }
}

impl AskedLine<'_> {
    // The list for the line at the node, by the tables of the machine: no path where the solved line's row has not the node.
    fn show(&self, next: &[u64; TABLE_WORDS], back: &[u64; TABLE_WORDS]) -> Made
        requires { Ready self.now.call.machine.now self.now.call.rules.now next.now back.now }
        ensures { ShowsLine self.now.call.machine.now self.now.call.rules.now self.now.rows.now (argument_of self.now.line) self.now.line.automaton self.now.exchanged self.now.call.node result.nodes result.states result.answer }
    {
        let m = self.call.machine;
        let r = self.call.rules;
        let s = self.call.node;
        let a = position::by_position(r, self.line.automaton);
        let sheets = Sheets {
            machine: m,
            rules: r,
            next,
            back,
        };
        let solved = sheets.solve(self.rows, self.line.lines, a, self.exchanged);
        let row = load(&solved.sets.reached, 0);
        if !row.has(s) {
            return Made {
                nodes: [0u8; PAIRS],
                answer: Ok(None),
                states: [0u16; PAIRS],
            };
        }
        let trace = Trace {
            solved: &solved,
            next,
            count: a.count as usize,
            nodes: machine::nodes(m),
            start: s,
        };
        let found = trace.trail();
        let shown = found.shown;
        let nodes = found.nodes;
        let mut states = found.positions;
        name_states(&a.numbers, &mut states[..shown.length as usize]);
        Made {
            nodes,
            answer: Ok(Some(shown)),
            states,
        }
    }

    // The same with the successors of the nodes alone: their predecessors are found here, in a frame of its own, so that the stack has one
    // table at a time.
    fn show_with(&self, next: &[u64; TABLE_WORDS]) -> Made
        requires { Successors self.now.call.machine.now next.now }
        ensures { ShowsLine self.now.call.machine.now self.now.call.rules.now self.now.rows.now (argument_of self.now.line) self.now.line.automaton self.now.exchanged self.now.call.node result.nodes result.states result.answer }
    {
        let back = structure::predecessors(next, machine::nodes(self.call.machine));
        self.show(next, &back)
    }

    // The same with neither table. It keeps a frame of its own, and labelling runs without that.
    #[inline(never)]
    fn show_line(&self) -> Made
        ensures { ShowsLine self.now.call.machine.now self.now.call.rules.now self.now.rows.now (argument_of self.now.line) self.now.line.automaton self.now.exchanged self.now.call.node result.nodes result.states result.answer }
    {
        let next = structure::successors(self.call.machine);
        self.show_with(&next)
    }
}

// Writes the nodes to the head of the list. They are bytes, so that a made list takes less of the stack, and each is widened here; states are
// words already, and are copied whole.
fn write_nodes(list: &mut [u16], from: &[u8])
    requires { length from.now ≤ length list.old }
    ensures { list.new ≡ from.now ++ drop (length from.now) list.old }
{
    for (i, node) in from.iter().enumerate() {
        list[i] = u16::from(*node);
    }
}

// Writes the numbers to the head of the list.
fn write_states(list: &mut [u16], from: &[u16])
    requires { length from.now ≤ length list.old }
    ensures { list.new ≡ from.now ++ drop (length from.now) list.old }
{
    list[..from.len()].copy_from_slice(from);
}

// How many pairs a made list has.
pub fn length_of(answer: Result<Option<Shown>, Refusal>) -> u16
    ensures { result ≡ length_of answer }
{
    match answer {
        Err(_) => 0,
        Ok(None) => 0,
        Ok(Some(shown)) => shown.length,
    }
}

// The path call for code that has no slice of structs: nodes and states of the pairs go to two lent lists. Line 0 means the last line.
pub fn path_lists(
    m: &[u16],
    r: &[u16],
    line: u16,
    node: u16,
    nodes: &mut [u16],
    states: &mut [u16],
) -> Result<Option<Shown>, Refusal>
    ensures { PathAnswer m.now r.now line node nodes.old states.old nodes.new states.new result }
{
    let call = Call {
        machine: m,
        rules: r,
        line,
        node,
    };
    let made = call.make_within(nodes.len().min(states.len()));
    let answer = made.answer;
    let count = length_of(answer) as usize;
    write_nodes(nodes, &made.nodes[..count]);
    write_states(states, &made.states[..count]);
    answer
}
