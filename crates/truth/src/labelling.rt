// Labelling: the rows of a whole rule sheet on a machine, whether the rule is kept, and the count and percent of its true nodes.
ghost use Rattle.std.specs.Prelude.{◌≡◌, ◌↔◌, ◌*◌, ◌≤◌, length, T};
ghost use Rattle.sheets.specs.CheckAnswers.{Answered};
ghost use Rattle.sheets.specs.Format.{nodes_most};
ghost use Rattle.sheets.specs.Machine as Machine;
ghost use Rattle.sheets.specs.Rules as Rules;
ghost use Rattle.truth.specs.Sizes.{row_words, members_most};
ghost use Rattle.truth.specs.inner.Rows.{row_has};
ghost use Rattle.truth.specs.Labelling as Labelling;
ghost use Rattle.truth.specs.LabelAnswers.{LabelAnswer};

use crate::lines::Sheets;
use crate::rows::Row;
use crate::sizes::{ROW_WORDS, TABLE_WORDS};
use crate::structure;
use crate::tables::{line_row, set_line_row};
use sheets::refusal::{CallQuestion, Refusal};
use sheets::{checks, machine, rules};

// What labelling finds: whether the rule is kept, and the count and percent of the nodes where its last line is true. `kept` is an answer by
// itself: the numbers stand either way.
#[derive(Clone, Copy, Debug, PartialEq, Eq)]
pub struct Labelled {
    pub kept: bool,
    pub count: u32,
    pub percent: u32,
}

// The questions of labelling, in order, for a space of so many words.
fn check_labelling(m: &[u16], r: &[u16], space: usize) -> Result<(), Refusal>
    ensures { Answered (Labelling.label_questions m.now r.now space) result }
{
    checks::check_sheets(m, r)?;
    if space < ROW_WORDS * (rules::lines(r) as usize) {
        return Err(Refusal::Call(CallQuestion::Rows));
    }
    Ok(())
}

// Writes the row of each line from the first to the given one.
pub fn label_lines(m: &[u16], r: &[u16], rows: &mut [u64], upto: u16)
    requires machine { Machine.machine_refusal m.now ≡ 0 }
    requires rules { Rules.rule_refusal Rules.lent r.now ≡ 0 }
    requires lines { upto ≤ Rules.lines r.now }
    requires room { row_words * upto ≤ length rows.old }
    ensures { Labelling.RowsTo m.now r.now upto rows.old rows.new }
{
    let mut next = [0u64; TABLE_WORDS];
    structure::write_successors(m, &mut next);
    let n = machine::nodes(m);
    let mut back = [0u64; TABLE_WORDS];
    structure::write_predecessors(&next, n, &mut back);
    let sheets = Sheets {
        machine: m,
        rules: r,
        next: &next,
        back: &back,
    };
    for j in 1..=upto {
        let row = sheets.row_of_line(rows, j);
        set_line_row(rows, j as usize, row);
    }
}

// Whether the start nodes are all in the row.
fn keeps(m: &[u16], last: Row) -> bool
    requires { Machine.nodes m.now ≤ nodes_most }
    ensures { T result ↔ Labelling.StartsIn m.now (row_has last) }
{
    structure::start_row(m).difference(last).is_empty()
}

// The whole percent of c among n, a half rounded to the even neighbour.
fn percent(c: u32, n: u16) -> u32
    requires few { c ≤ members_most }
    requires some { 1 ≤ n }
    ensures { result ≡ Labelling.percent c n }
{
    let whole = n as u32;
    let q = 100 * c / whole;
    let twice = 2 * (100 * c % whole);
    if twice < whole {
        return q;
    }
    if twice > whole {
        return q + 1;
    }
    q + q % 2
}

// Labels every line of the rule sheet r on the machine sheet m, two words of the space a line.
pub fn label(m: &[u16], r: &[u16], rows: &mut [u64]) -> Result<Labelled, Refusal>
    ensures { LabelAnswer m.now r.now rows.old rows.new result }
{
    check_labelling(m, r, rows.len())?;
    let l = rules::lines(r);
    label_lines(m, r, rows, l);
    let last = line_row(rows, l as usize);
    let count = last.count();
    Ok(Labelled {
        kept: keeps(m, last),
        count,
        percent: percent(count, machine::nodes(m)),
    })
}
