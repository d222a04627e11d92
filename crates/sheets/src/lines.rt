// A line of a rule sheet taken apart, and questions 15 and 16.
ghost use Rattle.std.specs.Prelude.{◌≡◌, ◌-◌, ◌≤◌, Some};
ghost use Rattle.sheets.specs.Format.{operation_place, variables_most};
ghost use Rattle.sheets.specs.Operations.{one_signal, lines_above};
ghost use Rattle.sheets.specs.OperationNumbers.{number_of, Reads};
ghost use Rattle.sheets.specs.Words.{within};
ghost use Rattle.sheets.specs.Questions.{first_no};
ghost use Rattle.sheets.specs.Refusals.{rule_refusal_of};
ghost use Rattle.sheets.specs.Rules as Rules;
ghost use Rattle.sheets.specs.inner.Lines as Lines;

use crate::operation::{NoOperation, Operation};
use crate::refusal::RuleQuestion;
use crate::{format, rules, words};

// The places of the operands after the first.
pub const SECOND_OPERAND: u16 = format::OPERAND + 1;

pub const THIRD_OPERAND: u16 = format::OPERAND + 2;

pub const FOURTH_OPERAND: u16 = format::OPERAND + 3;

pub const FIFTH_OPERAND: u16 = format::OPERAND + 4;

// An automaton with the lines of the variables that it may have; what stands past those that it has is 0.
#[derive(Clone, Copy, Debug, PartialEq, Eq)]
pub struct PathLine {
    pub automaton: u16,
    pub lines: [u16; format::VARIABLES],
}

// A line by its operation: a signal, "not" and "or" of lines above it, "on some path A" and "on some path not A".
#[derive(Clone, Copy, Debug, PartialEq, Eq)]
pub enum Line {
    Signal(u16),
    Negation(u16),
    Either(u16, u16),
    SomePath(PathLine),
    SomePathNot(PathLine),
}

// The record of a line: the sheet that it stands in, where the sheet's line records begin, which is found once for all the record's words,
// and the line's number.
#[derive(Clone, Copy)]
struct LineRecord<'a> {
    sheet: &'a [u16],
    from: u32,
    number: u16,
    ghost begins: { from ≡ Rules.lines_from sheet.now },
}

impl<'a> LineRecord<'a> {
    fn new(sheet: &'a [u16], number: u16) -> LineRecord<'a>
        ensures sheet { result.sheet.now ≡ sheet.now }
        ensures number { result.number ≡ number }
    {
        let from = rules::lines_from(sheet);
        LineRecord {
            sheet,
            from,
            number,
        }
    }

    fn word(&self, k: u16) -> u16
        ensures { result ≡ Rules.line_word Rules.lent self.now.sheet.now self.now.number k }
    {
        words::record_word(self.sheet, self.from, format::LINE_WORDS, self.number, k)
    }

    // The words from word c on are zero, and c is at most the record's length.
    fn unused(&self, c: u16) -> bool
        ensures { result ≡ Rules.unused Rules.lent self.now.sheet.now self.now.number c }
    {
        if c > format::LINE_WORDS {
            return false;
        }
        (c..format::LINE_WORDS).all(|k| self.word(k) == 0)
    }

    // Words c + 1 to c + n refer to lines above this one.
    fn refers_above(&self, c: u16, n: u16) -> bool
        requires place { c ≤ 1 }
        requires few { n ≤ variables_most }
        ensures { result ≡ Rules.refers_above Rules.lent self.now.sheet.now self.now.number c n }
    {
        (c..c + n).all(|k| self.is_above(self.word(k + 1)))
    }

    // Line k stands above this one.
    fn is_above(&self, k: u16) -> bool
        ensures { result ≡ within 1 (self.now.number - 1) k }
    {
        words::within(1, self.number.saturating_sub(1), k)
    }

    // Question 15 of a signal's words.
    fn signal_fits(&self) -> bool
        ensures { result ≡ Rules.operands_fit Rules.lent self.now.sheet.now self.now.number one_signal }
    {
        words::within(1, format::SIGNALS_MOST, self.word(format::OPERAND))
            & self.unused(SECOND_OPERAND)
    }

    // Question 15 of the words of an operation on n lines above.
    fn lines_fit(&self, n: u16) -> bool
        requires { n ≤ variables_most }
        ensures { result ≡ Rules.operands_fit Rules.lent self.now.sheet.now self.now.number (lines_above n) }
    {
        self.refers_above(format::OPERATION, n) & self.unused(format::OPERAND + n)
    }

    // Question 15 of a path line's words.
    fn path_fits(&self) -> bool
        ensures { result ≡ Rules.path_fits Rules.lent self.now.sheet.now self.now.number }
    {
        let x = self.word(format::OPERAND);
        let v = rules::variables(self.sheet, x);
        if v > format::VARIABLES_MOST {
            return false;
        }
        words::within(1, rules::automata(self.sheet), x)
            & self.refers_above(format::OPERAND, v)
            & self.unused(SECOND_OPERAND + v)
    }

    // The line's operation, or the number in its place that no operation has.
    fn operation(&self) -> Result<Operation, NoOperation>
        ensures { Reads (Rules.line_word Rules.lent self.now.sheet.now self.now.number operation_place) result }
    {
        Operation::try_from(self.word(format::OPERATION))
    }

    // Question 15 of the words of this operation.
    fn operands_fit(&self, operation: Operation) -> bool
        ensures { result ≡ Rules.line_fits Rules.lent self.now.sheet.now self.now.number (number_of operation) }
    {
        match operation {
            Operation::Signal => self.signal_fits(),
            Operation::Negation => self.lines_fit(1),
            Operation::Either => self.lines_fit(2),
            Operation::SomePath | Operation::SomePathNot => self.path_fits(),
        }
    }

    // The automaton and the lines that the record's words name.
    fn path_line(&self) -> PathLine
        ensures { result ≡ Lines.named self.now.sheet.now self.now.number }
    {
        let automaton = self.word(format::OPERAND);
        let first = self.word(SECOND_OPERAND);
        let second = self.word(THIRD_OPERAND);
        let third = self.word(FOURTH_OPERAND);
        let fourth = self.word(FIFTH_OPERAND);
        PathLine {
            automaton,
            lines: [first, second, third, fourth],
        }
    }

    // The line that this operation makes of the words, whatever question 15 says of them.
    fn line(&self, operation: Operation) -> Line
        ensures { Some result ≡ Lines.handed (Rules.line_of Rules.lent self.now.sheet.now self.now.number (number_of operation)) }
    {
        match operation {
            Operation::Signal => Line::Signal(self.word(format::OPERAND)),
            Operation::Negation => Line::Negation(self.word(format::OPERAND)),
            Operation::Either => {
                let first = self.word(format::OPERAND);
                let second = self.word(SECOND_OPERAND);
                Line::Either(first, second)
            }
            Operation::SomePath => Line::SomePath(self.path_line()),
            Operation::SomePathNot => Line::SomePathNot(self.path_line()),
        }
    }
}

// The number of the operation of line j, as it stands; `read_operation` says which operation has it.
pub fn operation(r: &[u16], j: u16) -> u16
    ensures { result ≡ Rules.line_word Rules.lent r.now j operation_place }
{
    LineRecord::new(r, j).word(format::OPERATION)
}

// The operation of line j, or the number in its place that no operation has.
pub fn read_operation(r: &[u16], j: u16) -> Result<Operation, NoOperation>
    ensures { Reads (Rules.line_word Rules.lent r.now j operation_place) result }
{
    LineRecord::new(r, j).operation()
}

// The automaton and the lines that the words of line j name.
pub fn path_line(r: &[u16], j: u16) -> PathLine
    ensures { result ≡ Lines.named r.now j }
{
    LineRecord::new(r, j).path_line()
}

// Line j taken apart; none where question 15 says no to it.
pub fn decode(r: &[u16], j: u16) -> Option<Line>
    ensures { result ≡ Lines.decoded r.now j }
{
    let record = LineRecord::new(r, j);
    let operation = record.operation().ok()?;
    // An `if`, since `then` would make a closure of the line.
    if record.operands_fit(operation) {
        Some(record.line(operation))
    } else {
        None
    }
}

// Question 15: a malformed line leaves the check there. The `let .. else` is the form that document 01 asks for.
pub fn check_lines(r: &[u16]) -> Result<(), RuleQuestion>
    ensures { rule_refusal_of result ≡ first_no (Rules.line_questions Rules.lent r.now) }
{
    for j in 1..=rules::lines(r) {
        let Some(_) = decode(r, j) else {
            return Err(RuleQuestion::Lines);
        };
    }
    Ok(())
}

// Question 16 of line j: a signal's number is at most a, and another line has none.
fn line_over(r: &[u16], j: u16, a: u16) -> bool
    ensures { result ≡ Rules.signal_most a (Rules.line Rules.lent r.now j) }
{
    let record = LineRecord::new(r, j);
    // By its number: with a `match` on the operation the proof did not close, since the last arm is not known to be no signal.
    if record.word(format::OPERATION) != Operation::Signal.number() {
        return true;
    }
    record.word(format::OPERAND) <= a
}

// Question 16: the signal numbers are at most a.
pub fn over_signals(r: &[u16], a: u16) -> bool
    ensures { result ≡ Rules.over_signals Rules.lent a r.now }
{
    (1..=rules::lines(r)).all(|j| line_over(r, j, a))
}
