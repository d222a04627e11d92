// What is answered to the input, and the line that says it.
ghost use Rattle.text.specs.Lines.{Holds};
ghost use Rattle.compare.specs.Program.{line_bytes, Answered, Printed};

use comparison::compare;
use comparison::compare::Answer;
use input::refused::Refused;
use input::{limits, line, reply};
use text::line::Line;

// The answer to the bytes of standard input, with space for the longest rule.
fn answer_to(input: &[u8]) -> Result<Answer, Refused>
    ensures { Answered input.now result }
{
    let mut words = [0u16; limits::MACHINES_WORDS];
    let mut space = [0u16; limits::RULE_WORDS];
    reply::reply_to(input, &mut words, &mut space, compare::compare)
}

// The line of an answer.
#[tactic(auto, unfolding(crate::specs::Program::line_bytes))]
fn line_of(answer: Result<Answer, Refused>) -> Line
    ensures { Holds result (line_bytes answer) }
{
    match answer {
        Ok(Answer::Equal) => Line::of(b"equal\n"),
        Ok(Answer::Unequal) => Line::of(b"unequal\n"),
        Err(refused) => line::refused(refused.number(), refused.sheet()),
    }
}

// The line that is printed for the bytes of standard input.
pub fn line_for(input: &[u8]) -> Line
    ensures { Printed input.now result }
{
    line_of(answer_to(input))
}
