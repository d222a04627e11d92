// The labelling program: a machine sheet and a rule sheet from standard input; the truth of every line at every node, and whether the
// rule is kept, to standard output.
#![tactic(auto)]

mod answer; // answer.rt: what is answered to the input
mod print; // print.rt: what is printed

ghost use Rattle.label.specs.inner.AnsweredRows.{AnsweredRows};

use answer::Answer;
use input::refused::Refused;
use input::{full, limits};
use sheets::format;
use std::io;
use std::io::Write;
use truth::sizes;

// Reads one byte more than is taken, so that a longer input is noticed.
fn main(rt: HostRuntime) -> io::Result<()> {
    let mut input = [0u8; limits::SHEETS_BYTES + 1];
    let n = full::read_full(&mut rt.stdin(), &mut input)?;
    let mut rows = [0u64; sizes::ROW_WORDS * format::LINES];
    let answer = answer::answer_to(&input[..n], &mut rows);
    show(&mut rt.stdout(), answer, &rows)
}

// Prints an answer, whose rows lie in the space.
fn show<W: Write>(out: &mut W, answer: Result<Answer, Refused>, rows: &[u64]) -> io::Result<()>
    requires { AnsweredRows rows.now answer }
{
    match answer {
        Ok(answer) => match answer.labelled {
            Ok(labelled) => {
                print::rows(out, rows, answer.nodes, answer.lines)?;
                print::verdict(out, answer.nodes, labelled)
            }
            Err(refusal) => print::refusal(out, Refused::from(refusal)),
        },
        Err(refused) => print::refusal(out, refused),
    }
}
