// Which of two machines keeps a rule, and the first start node where the other breaks it.
ghost use Rattle.truth.specs.Breaks.{FirstBreak};
ghost use Rattle.explain.specs.Verdicts.{Labelable, Telling, Judged};

use sheets::refusal::Side;
use sheets::{format, rules};
use truth::{breaks, labelling, sizes, tables};

// Which machine keeps a rule, and the first start node where the other breaks it.
#[derive(Clone, Copy, Debug, PartialEq, Eq)]
pub struct Verdict {
    pub keeper: Side,
    pub node: u16,
}

// The first start node of the machine at which the rule is false, if the machine doesn't keep it. Labelling refuses nothing here.
fn broken_at(m: &[u16], rule: &[u16]) -> Option<u16>
    requires { Labelable m.now rule.now }
    ensures { FirstBreak m.now rule.now result }
{
    let mut rows = [0u64; sizes::ROW_WORDS * format::LINES];
    let _ = labelling::label(m, rule, &mut rows);
    let last = tables::line_row(&rows, rules::lines(rule) as usize);
    breaks::first_break(m, last)
}

// The verdict on a rule that exactly one of the two machines keeps.
pub fn judge(first: &[u16], second: &[u16], rule: &[u16]) -> Verdict
    requires { Telling first.now second.now rule.now }
    ensures { Judged first.now second.now rule.now result }
{
    if let Some(node) = broken_at(second, rule) {
        return Verdict {
            keeper: Side::First,
            node,
        };
    }
    Verdict {
        keeper: Side::Second,
        node: broken_at(first, rule).unwrap(),
    }
}
