// What is said of the input: that the two machines are equal, or the verdict on the rule that is left in the space.
ghost use Rattle.std.specs.Prelude.{◌≡◌, ◌+◌, ◌*◌};
ghost use Rattle.sheets.specs.Format.{line_words, next_head};
ghost use Rattle.sheets.specs.Rules.{lines};
ghost use Rattle.explain.specs.Program.{Explained, Answered};

use crate::verdict;
use crate::verdict::Verdict;
use comparison::compare;
use comparison::compare::Answer;
use input::refused::Refused;
use input::{limits, reply};
use sheets::refusal::Refusal;
use sheets::{format, rules};

const LINE_WORDS: usize = format::LINE_WORDS as usize;

// How many words at the head of the space are the written rule's.
fn rule_end(space: &[u16]) -> usize
    ensures { result ≡ next_head + line_words * lines space.now }
{
    format::NEXT_HEAD + LINE_WORDS * (rules::lines(space) as usize)
}

// What is said of two sheets: none where they are equal.
fn explain_sheets(
    first: &[u16],
    second: &[u16],
    space: &mut [u16],
) -> Result<Option<Verdict>, Refusal>
    ensures { Explained first.now second.now space.old space.new result }
{
    let answer = compare::compare(first, second, space)?;
    match answer {
        Answer::Equal => Ok(None),
        Answer::Unequal => {
            let end = rule_end(space);
            Ok(Some(verdict::judge(first, second, &space[..end])))
        }
    }
}

// What is said of the bytes of standard input; unequal, the rule is left at the head of the space.
pub fn answer_to(input: &[u8], space: &mut [u16]) -> Result<Option<Verdict>, Refused>
    ensures { Answered input.now space.old space.new result }
{
    let mut words = [0u16; limits::MACHINES_WORDS];
    reply::reply_to(input, &mut words, space, explain_sheets)
}
