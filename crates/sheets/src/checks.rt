// The sheet checks: the two entry points, for every slice of words, empty ones too, which C has two names for, and questions 1 to 16 for the
// calls that take a machine sheet and a rule sheet.
ghost use Rattle.sheets.specs.Machine as Machine;
ghost use Rattle.sheets.specs.Rules as Rules;
ghost use Rattle.sheets.specs.Sheets as Sheets;
ghost use Rattle.sheets.specs.CheckAnswers.{Answered};

use crate::refusal::{CallQuestion, Refusal, RuleQuestion};
use crate::{automata, condition, lines, machine, rules};

// The machine sheet check, questions 1 to 6.
pub fn check_machine(m: &[u16]) -> Result<(), Refusal>
    ensures { Answered (Machine.machine_questions 1 m.now) result }
{
    Ok(machine::check(m)?)
}

// The rule sheet check, questions 7 to 15.
pub fn check_rules(r: &[u16]) -> Result<(), Refusal>
    ensures { Answered (Rules.rule_questions Rules.lent r.now) result }
{
    rules::check_records(r)?;
    if !automata::q12(r) {
        return Err(Refusal::Rules(RuleQuestion::Chains));
    }
    if !automata::q13(r) {
        return Err(Refusal::Rules(RuleQuestion::Valuations));
    }
    let unmixed = condition::q14(r);
    if !unmixed {
        return Err(Refusal::Rules(RuleQuestion::Cycles));
    }
    lines::check_lines(r)?;
    Ok(())
}

// Questions 1 to 16, of a machine sheet and a rule sheet.
pub fn check_sheets(m: &[u16], r: &[u16]) -> Result<(), Refusal>
    ensures { Answered (Sheets.sheet_questions m.now r.now) result }
{
    check_machine(m)?;
    check_rules(r)?;
    if !lines::over_signals(r, machine::signals(m)) {
        return Err(Refusal::Call(CallQuestion::Signals));
    }
    Ok(())
}
