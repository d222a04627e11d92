// What is answered to a sheet that is checked, and the line that says it.
ghost use Rattle.std.specs.Prelude.{◌≡◌};
ghost use Rattle.sheets.specs.CheckAnswers.{Answered};
ghost use Rattle.text.specs.Lines.{Holds};
ghost use Rattle.sheet.specs.Program.{questions, CheckedBytes, CheckedText, Checked, line_bytes};
ghost use Rattle.sheet.specs.Program as Program;
ghost use Rattle.input.specs.declared.refused.Refused.TheVariants.{Question};
ghost use Rattle.input.specs.declared.turn.TurnError.TheVariants as Why;
ghost use Rattle.sheet.specs.declared.answer.NotAccepted.TheVariants as Says;

use input::refused::Refused;
use input::turn::TurnError;
use input::{cut, limits, line};
use sheets::checks;
use sheets::refusal::Refusal;
use text::line::Line;
use text::read;
use text::read::Fault;

// Which sheet is checked.
#[derive(Clone, Copy, Debug, PartialEq, Eq)]
pub enum Sort {
    Machine,
    Rules,
}

// The form that a sheet has: its bytes, or its text.
#[derive(Clone, Copy, Debug, PartialEq, Eq)]
pub enum Form {
    Bytes,
    Text,
}

// A check: of which sheet, and the form in which it is given.
#[derive(Clone, Copy, Debug, PartialEq, Eq)]
pub struct Check {
    pub sort: Sort,
    pub form: Form,
}

// Why the input is not accepted: it is refused; or it is no sheet's text, as the program says too where the text is to be bytes.
#[derive(Clone, Copy, Debug, PartialEq, Eq)]
pub enum NotAccepted {
    Refused(Refused),
    Text(TurnError),
}

impl From<Refused> for NotAccepted {
    ghost from_gives = { λ refused reason. reason ≡ Says.Refused refused };

    fn from(refused: Refused) -> NotAccepted {
        NotAccepted::Refused(refused)
    }
}

impl From<Refusal> for NotAccepted {
    ghost from_gives = { λ refusal reason. reason ≡ Says.Refused (Question refusal) };

    fn from(refusal: Refusal) -> NotAccepted {
        NotAccepted::Refused(Refused::Question(refusal))
    }
}

impl From<Fault> for NotAccepted {
    ghost from_gives = { λ fault reason. reason ≡ Says.Text (Why.Fault fault) };

    fn from(fault: Fault) -> NotAccepted {
        NotAccepted::Text(TurnError::Fault(fault))
    }
}

// What is told: the answer, and its line for standard output, which is empty where the input is no sheet's text.
#[derive(Clone, Copy)]
pub struct Told {
    pub answer: Result<(), NotAccepted>,
    pub line: Line,
}

// The check of a sheet's words.
#[tactic(auto, unfolding(crate::specs::Program::questions))]
fn check_words(sort: Sort, words: &[u16]) -> Result<(), Refusal>
    ensures { Answered (questions sort words.now) result }
{
    match sort {
        Sort::Machine => checks::check_machine(words),
        Sort::Rules => checks::check_rules(words),
    }
}

// The check of a sheet's bytes.
fn check_bytes(sort: Sort, sheet: &[u8]) -> Result<(), Refused>
    ensures { CheckedBytes sort sheet.now result }
{
    let mut words = [0u16; limits::SHEETS_WORDS];
    let cut = cut::sheets_of(sheet, &mut words)?;
    check_words(sort, cut.whole(&words))?;
    Ok(())
}

// The answer to a sheet's text.
fn check_text(sort: Sort, text: &[u8]) -> Result<(), NotAccepted>
    ensures { CheckedText sort text.now result }
{
    if limits::TEXT_BYTES < text.len() {
        return Err(NotAccepted::Text(TurnError::LongText));
    }
    let mut words = [0u16; limits::SHEETS_WORDS];
    let count = read::words_of_text(text, &mut words)?;
    check_words(sort, &words[..count])?;
    Ok(())
}

// The answer to the bytes of standard input, which are the sheet's bytes or its text.
fn answer_to(check: Check, input: &[u8]) -> Result<(), NotAccepted>
    ensures { Checked check.sort check.form input.now result }
{
    match check.form {
        Form::Bytes => Ok(check_bytes(check.sort, input)?),
        Form::Text => check_text(check.sort, input),
    }
}

// The line of an answer.
#[tactic(auto, unfolding(crate::specs::Program::line_bytes))]
fn line_of(answer: Result<(), NotAccepted>) -> Line
    ensures { Holds result (line_bytes answer) }
{
    match answer {
        Ok(()) => Line::of(b"accepted\n"),
        Err(NotAccepted::Refused(refused)) => line::refused(refused.number(), refused.sheet()),
        Err(NotAccepted::Text(_)) => Line::empty(),
    }
}

// What is told of the bytes of standard input.
pub fn told_for(check: Check, input: &[u8]) -> Told
    ensures { Program.Told check input.now result }
{
    let answer = answer_to(check, input);
    let line = line_of(answer);
    Told { answer, line }
}
