// The answer in words, to a writer. Each function is proved safe and ends.
use crate::verdict::Verdict;
use input::refused::Refused;
use sentences::printing;
use sheets::refusal::Side;
use sheets::rules;
use std::io;
use std::io::Write;

// Prints what is said of the input; the rule stands at the head of the space.
pub fn print<W: Write>(
    out: &mut W,
    said: Result<Option<Verdict>, Refused>,
    rule: &[u16],
) -> io::Result<()> {
    match said {
        Ok(None) => writeln!(
            out,
            "The two machines are equal: every rule is kept by both or by neither. A replacement needs no rehearsal call."
        ),
        Ok(Some(verdict)) => {
            writeln!(
                out,
                "The two machines are unequal. One of them keeps this rule and the other does not:"
            )?;
            printing::print_sentence(out, rule)?;
            writeln!(out, "Line by line:")?;
            printing::print_rule(out, rule)?;
            print_verdict(out, verdict, rules::lines(rule))
        }
        Err(refused) => writeln!(out, "refused: {refused}"),
    }
}

// Which machine keeps the rule, its last line, and where the other breaks it.
fn print_verdict<W: Write>(out: &mut W, verdict: Verdict, last: u16) -> io::Result<()> {
    let (keeper, breaker) = match verdict.keeper {
        Side::First => ("first", "second"),
        Side::Second => ("second", "first"),
    };
    let node = verdict.node;
    writeln!(
        out,
        "The {keeper} machine keeps the rule, line {last}. The {breaker} breaks it at its start node {node}."
    )
}
