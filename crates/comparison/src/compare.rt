// The comparison: its questions, its answer, and the rule that tells the two machines apart.
ghost use Rattle.std.specs.Prelude.{◌≡◌, ℕ, ◌+◌, ◌*◌, ◌<◌, ◌≤◌, List, ◌++◌, length, drop};
ghost use Rattle.std.proofs.Math.Seq.{paste};
ghost use Rattle.truth.specs.Passed.{Answered};
ghost use Rattle.truth.specs.Passed.{nodes_most, line_words, next_head};
ghost use Rattle.truth.specs.Passed as Passed;
ghost use Rattle.truth.specs.inner.Rows.{row_has, rows_has};
ghost use Rattle.comparison.specs.Comparison as Comparison;
ghost use Rattle.comparison.specs.inner.Lines.{Entry, Lists};
ghost use Rattle.comparison.specs.inner.Needed.{Listed, ShortSheet};
ghost use Rattle.comparison.specs.inner.Sides.{OneSided, has_start, differ};
ghost use Rattle.comparison.specs.CompareAnswers.{comparison_questions, CompareAnswer};

use crate::blocks::Partition;
use crate::machines::{Both, Sets};
use crate::needed::shorten;
use crate::refine::refine;
use crate::sizes;
use crate::writing::{Line, Written, copy};
use truth::header::{CallQuestion, Refusal, Side};
use truth::{header, structure};

// What comparison says of two machines.
#[derive(Clone, Copy, Debug, PartialEq, Eq)]
pub enum Answer {
    Equal,
    Unequal,
}

// The words of a written rule before its lines: the header, of which the number of lines is put in, and the automaton Next.
const NEXT: [u16; sizes::NEXT_HEAD] = [
    1,
    header::NEXT_STATES,
    header::NEXT_TRANSITIONS,
    0,
    1,
    1,
    0,
    1,
    2,
    0,
    2,
    3,
    1,
    4,
    4,
    0,
    5,
    0,
    2,
    3,
    0,
    3,
    2,
    3,
    4,
    1,
    0,
    3,
    3,
    0,
    4,
    3,
    0,
];

// Questions 1 to 6 of the second sheet.
fn check_second(m: &[u16]) -> Result<(), Refusal>
    ensures { Answered (Passed.machine_questions 2 m.now) result }
{
    header::check(m).map_err(|question| Refusal::Machine(Side::Second, question))
}

// Questions 20 to 22, in order, for a space of so many words.
fn check_together(m1: &[u16], m2: &[u16], space: usize) -> Result<(), Refusal>
    ensures { Answered (Comparison.compare_questions m1.now m2.now space) result }
{
    let signals = header::signals(m1);
    if signals != header::signals(m2) {
        return Err(Refusal::Call(CallQuestion::SameSignals));
    }
    let nodes = header::nodes(m1) as usize + header::nodes(m2) as usize;
    if nodes > sizes::NODES {
        return Err(Refusal::Call(CallQuestion::Together));
    }
    // `as u16` narrows no value: the nodes are no more than a table has room for.
    if space < header::rule_space(signals, nodes as u16) {
        return Err(Refusal::Call(CallQuestion::RuleSpace));
    }
    Ok(())
}

// The questions of a comparison, in order, for a space of so many words.
fn check_comparison(m1: &[u16], m2: &[u16], space: usize) -> Result<(), Refusal>
    ensures { Answered (comparison_questions m1.now m2.now space) result }
{
    header::check_machine(m1)?;
    check_second(m2)?;
    check_together(m1, m2, space)
}

// Whether block c has a start node of one machine and none of the other, where the sets are those of the start nodes.
fn starts_differ(partition: &Partition, c: u16, starts: Sets) -> bool
    requires { c < partition.now.count }
    ensures { result ≡ differ (has_start (rows_has partition.now.rows.first c) (row_has starts.first)) (has_start (rows_has partition.now.rows.second c) (row_has starts.second)) }
{
    let block = partition.block(c);
    block.first.meets(starts.first) != block.second.meets(starts.second)
}

// A block with a start node of one machine only.
fn one_sided(m1: &[u16], m2: &[u16], partition: &Partition) -> Option<u16>
    requires nodes1 { Passed.nodes m1.now ≤ nodes_most }
    requires nodes2 { Passed.nodes m2.now ≤ nodes_most }
    ensures { OneSided m1.now m2.now (rows_has partition.now.rows.first) (rows_has partition.now.rows.second) partition.now.count result }
{
    let starts = Both {
        first: structure::start_row(m1),
        second: structure::start_row(m2),
    };
    (0..partition.count).find(|c| starts_differ(partition, *c, starts))
}

// The words before the lines, for a rule of n lines.
#[tactic(auto, unfolding(crate::specs::Comparison::next_words))]
fn put_head(space: &mut [u16], n: u16)
    requires { next_head ≤ length space.old }
    ensures { space.new ≡ Comparison.rule_head n ++ drop next_head space.old }
{
    copy(space, 0, &NEXT);
    space[header::LINES_WORD] = n;
}

// The words of the lines.
fn put_lines(space: &mut [u16], lines: &Written)
    requires fits { next_head + line_words * lines.now.count ≤ length space.old }
    ensures { space.new ≡ paste space.old next_head lines.now.words (line_words * lines.now.count) }
{
    let n = sizes::LINE_WORDS * lines.count as usize;
    copy(space, sizes::NEXT_HEAD, &lines.words[..n]);
}

// The sheet of the lines that the last of the written lines needs.
fn put_sheet(space: &mut [u16], lines: &Written)
    requires fits { next_head + line_words * lines.now.count ≤ length space.old }
    requires some { 1 ≤ lines.now.count }
    requires listed { Listed lines.now }
    ensures { (a : ℕ) (ls : List Entry) → Lists a lines.now ls → ShortSheet a ls space.old space.new }
{
    let mut short = Written::new();
    shorten(lines, &mut short);
    put_head(space, short.count);
    put_lines(space, &short);
}

// Compares two machine sheets. Unequal, a rule that exactly one of them keeps is written at the head of the space; otherwise nothing is.
// The two are not one `Both`, here and in what is called: each clause names its sheet, and callers have two slices.
pub fn compare(m1: &[u16], m2: &[u16], space: &mut [u16]) -> Result<Answer, Refusal>
    ensures { CompareAnswer m1.now m2.now space.old space.new result }
{
    check_comparison(m1, m2, space.len())?;
    let mut partition = refine(m1, m2);
    match one_sided(m1, m2, &partition) {
        None => Ok(Answer::Equal),
        Some(c) => {
            let line = partition.line[c as usize];
            partition.lines.push(Line::Not(line));
            put_sheet(space, &partition.lines);
            Ok(Answer::Unequal)
        }
    }
}
