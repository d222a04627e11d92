// What is answered to the input.
ghost use Rattle.std.specs.Prelude.{IsOkAnd};
ghost use Rattle.label.specs.Program.{LabelledSheets, Answered};

use input::refused::Refused;
use input::{limits, reply};
use sheets::refusal::Refusal;
use sheets::{machine, rules};
use truth::labelling;
use truth::labelling::Labelled;

// What labelling finds, or the question that says no; and beside either the numbers of nodes and lines, for what is printed.
#[derive(Clone, Copy, Debug, PartialEq, Eq)]
pub struct Answer {
    pub labelled: Result<Labelled, Refusal>,
    pub nodes: u16,
    pub lines: u16,
}

// The answer to a machine sheet and a rule sheet.
fn label_sheets(m: &[u16], r: &[u16], rows: &mut [u64]) -> Answer
    ensures { LabelledSheets m.now r.now rows.old rows.new result }
{
    let labelled = labelling::label(m, r, rows);
    Answer {
        labelled,
        nodes: machine::nodes(m),
        lines: rules::lines(r),
    }
}

// The answer to the bytes of standard input, refused just where they are no sheets; the truth rows go to the lent space, two words a line. The
// closure hands the answer to two sheets on, whichever it is.
pub fn answer_to(input: &[u8], rows: &mut [u64]) -> Result<Answer, Refused>
    ensures { Answered input.now rows.old rows.new result }
{
    let mut words = [0u16; limits::SHEETS_WORDS];
    reply::reply_to(
        input,
        &mut words,
        rows,
        |m: &[u16], r: &[u16], rows: &mut [u64]|
            ensures { IsOkAnd result (LabelledSheets m.now r.now rows.old rows.new) }
        { Ok(label_sheets(m, r, rows)) },
    )
}
