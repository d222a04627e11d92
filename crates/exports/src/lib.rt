// The proved code as functions over numbers and slices, in the form that C calls: exports_c hands each of them to C. C has no Result and no
// Option, so that 0 stands for none here, and each call is told for itself.
#![tactic(auto)]

ghost use Rattle.std.specs.Prelude.{◌≡◌};
ghost use Rattle.sheets.specs.Machine.{machine_refusal};
ghost use Rattle.sheets.specs.Refusals.{refusal_of, number_of, sheet_of};
ghost use Rattle.sheets.specs.Rules.{lent, rule_refusal};
ghost use Rattle.truth.specs.LabelAnswers.{LabelAnswer};
ghost use Rattle.truth.specs.PathAnswers.{PathAnswer};
ghost use Rattle.truth.specs.PathPairs.{PairsAnswer};
ghost use Rattle.exports.specs.Numbers.{Told, label_numbers, path_numbers, compare_numbers};
ghost use Rattle.comparison.specs.CompareAnswers.{CompareAnswer};

use comparison::compare;
use comparison::compare::Answer;
use sheets::checks;
use sheets::refusal::Refusal;
use truth::labelling::Labelled;
use truth::pairs::Pair;
use truth::path::Shown;
use truth::{labelling, pairs, path};

// The question that refuses a machine sheet, 0 where it is accepted.
pub fn toqshenay_check_machine(m: &[u16]) -> u16
    ensures { result ≡ machine_refusal m.now }
{
    tell_check(checks::check_machine(m))
}

// The question that refuses a rule sheet, 0 where it is accepted.
pub fn toqshenay_check_rules(r: &[u16]) -> u16
    ensures { result ≡ rule_refusal lent r.now }
{
    tell_check(checks::check_rules(r))
}

// The number of a check's answer: the question that refuses, or 0.
#[tactic(auto, unfolding(sheets::specs::Questions::none))]
fn tell_check(answer: Result<(), Refusal>) -> u16
    ensures { result ≡ (refusal_of answer).number }
{
    match answer {
        Ok(()) => 0,
        Err(refusal) => refusal.number(),
    }
}

// The two numbers of a refusal: the question that refuses, and its sheet.
fn tell_refusal(refusal: Refusal, sheet: &mut u16) -> u16
    ensures number { result ≡ number_of refusal }
    ensures sheet { sheet.new ≡ sheet_of refusal }
{
    *sheet = refusal.sheet();
    refusal.number()
}

// Labelling: the rows go to the lent space, two words a line. The question that refuses, and its sheet, or 0; then whether the rule
// is kept, the number of true nodes of the last line, and its percent among the nodes.
pub fn toqshenay_label(
    m: &[u16],
    r: &[u16],
    rows: &mut [u64],
    sheet: &mut u16,
    kept: &mut u16,
    count: &mut u32,
    percent: &mut u32,
) -> u16
    ensures { Told (LabelAnswer m.now r.now rows.old rows.new) label_numbers (record { question = result; sheet = sheet.new; kept = kept.new; count = count.new; percent = percent.new }) }
{
    let answer = labelling::label(m, r, rows);
    tell_label(answer, sheet, kept, count, percent)
}

// The numbers of labelling's answer: what an answer does not tell is 0.
fn tell_label(
    answer: Result<Labelled, Refusal>,
    sheet: &mut u16,
    kept: &mut u16,
    count: &mut u32,
    percent: &mut u32,
) -> u16
    ensures { record { question = result; sheet = sheet.new; kept = kept.new; count = count.new; percent = percent.new } ≡ label_numbers answer }
{
    *sheet = 0;
    *kept = 0;
    *count = 0;
    *percent = 0;
    match answer {
        Ok(found) => {
            *kept = u16::from(found.kept);
            *count = found.count;
            *percent = found.percent;
            0
        }
        Err(refusal) => tell_refusal(refusal, sheet),
    }
}

// The numbers of a path's answer: the question that refuses, and its sheet, or 0; then the number of pairs, 0 where there is no path, since C
// has no Option, and the place that the last pair goes back to.
fn tell_path(
    answer: Result<Option<Shown>, Refusal>,
    sheet: &mut u16,
    length: &mut u16,
    back: &mut u16,
) -> u16
    ensures { record { question = result; sheet = sheet.new; size = length.new; back = back.new } ≡ path_numbers answer }
{
    *sheet = 0;
    *length = 0;
    *back = 0;
    match answer {
        Ok(None) => 0,
        Ok(Some(shown)) => {
            *length = shown.length;
            *back = shown.back;
            0
        }
        Err(refusal) => tell_refusal(refusal, sheet),
    }
}

// Shows a path for a path line at a node: the nodes and the states of its pairs go to two lent lists. The numbers are `tell_path`'s.
pub fn toqshenay_path(
    m: &[u16],
    r: &[u16],
    line: u16,
    node: u16,
    nodes: &mut [u16],
    states: &mut [u16],
    sheet: &mut u16,
    length: &mut u16,
    back: &mut u16,
) -> u16
    ensures { Told (PathAnswer m.now r.now line node nodes.old states.old nodes.new states.new) path_numbers (record { question = result; sheet = sheet.new; size = length.new; back = back.new }) }
{
    let answer = path::path_lists(m, r, line, node, nodes, states);
    tell_path(answer, sheet, length, back)
}

// The same with one lent list, of pairs.
pub fn toqshenay_path_pairs(
    m: &[u16],
    r: &[u16],
    line: u16,
    node: u16,
    list: &mut [Pair],
    sheet: &mut u16,
    length: &mut u16,
    back: &mut u16,
) -> u16
    ensures { Told (PairsAnswer m.now r.now line node list.old list.new) path_numbers (record { question = result; sheet = sheet.new; size = length.new; back = back.new }) }
{
    let answer = pairs::path(m, r, line, node, list);
    tell_path(answer, sheet, length, back)
}

// Compares two machine sheets; where they are unequal, the rule that tells them apart goes to the lent space. The question that
// refuses, and its sheet, or 0; then 0 where the two are equal and 1 where they are not.
pub fn toqshenay_compare(
    m1: &[u16],
    m2: &[u16],
    space: &mut [u16],
    sheet: &mut u16,
    unequal: &mut u16,
) -> u16
    ensures { Told (CompareAnswer m1.now m2.now space.old space.new) compare_numbers (record { question = result; sheet = sheet.new; unequal = unequal.new }) }
{
    let answer = compare::compare(m1, m2, space);
    tell_compare(answer, sheet, unequal)
}

// The numbers of a comparison's answer.
fn tell_compare(answer: Result<Answer, Refusal>, sheet: &mut u16, unequal: &mut u16) -> u16
    ensures { record { question = result; sheet = sheet.new; unequal = unequal.new } ≡ compare_numbers answer }
{
    *sheet = 0;
    *unequal = 0;
    match answer {
        Ok(Answer::Equal) => 0,
        Ok(Answer::Unequal) => {
            *unequal = 1;
            0
        }
        Err(refusal) => tell_refusal(refusal, sheet),
    }
}
