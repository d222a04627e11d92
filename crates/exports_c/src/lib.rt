// The proved code for C and Rust: each function of the library `exports`, under its name and with its clauses. A slice passes as a pointer
// and a length.
#![tactic(auto)]

ghost use Rattle.std.specs.Prelude.{◌≡◌};
ghost use Rattle.sheets.specs.Machine.{machine_refusal};
ghost use Rattle.sheets.specs.Rules.{lent, rule_refusal};
ghost use Rattle.truth.specs.LabelAnswers.{LabelAnswer};
ghost use Rattle.truth.specs.PathAnswers.{PathAnswer};
ghost use Rattle.truth.specs.PathPairs.{PairsAnswer};
ghost use Rattle.exports.specs.Numbers.{Told, label_numbers, path_numbers, compare_numbers};
ghost use Rattle.comparison.specs.CompareAnswers.{CompareAnswer};

use truth::pairs::Pair;

// The question that refuses a machine sheet, 0 where it is accepted.
#[unsafe(no_mangle)]
pub extern "C" fn toqshenay_check_machine(m: &[u16]) -> u16
    ensures { result ≡ machine_refusal m.now }
{
    exports::toqshenay_check_machine(m)
}

// The question that refuses a rule sheet, 0 where it is accepted.
#[unsafe(no_mangle)]
pub extern "C" fn toqshenay_check_rules(r: &[u16]) -> u16
    ensures { result ≡ rule_refusal lent r.now }
{
    exports::toqshenay_check_rules(r)
}

// Labelling: the rows go to the lent space, two words a line. The question that refuses, and its sheet, or 0; then whether the rule
// is kept, the number of true nodes of the last line, and its percent among the nodes.
#[unsafe(no_mangle)]
pub extern "C" fn toqshenay_label(
    m: &[u16],
    r: &[u16],
    rows: &mut [u64],
    sheet: &mut u16,
    kept: &mut u16,
    count: &mut u32,
    percent: &mut u32,
) -> u16
    ensures { Told (LabelAnswer m.now r.now rows.old rows.new) label_numbers (record { question = result; sheet = sheet.new; kept = kept.new; count = count.new; percent = percent.new }) }
{
    exports::toqshenay_label(m, r, rows, sheet, kept, count, percent)
}

// Shows a path for a path line at a node: the nodes and the states of its pairs go to two lent lists. The question that refuses, and its
// sheet, or 0; then the number of pairs, 0 where there is no path, and the place that the last pair goes back to.
#[unsafe(no_mangle)]
pub extern "C" fn toqshenay_path(
    m: &[u16],
    r: &[u16],
    line: u16,
    node: u16,
    nodes: &mut [u16],
    states: &mut [u16],
    sheet: &mut u16,
    length: &mut u16,
    back: &mut u16,
) -> u16
    ensures { Told (PathAnswer m.now r.now line node nodes.old states.old nodes.new states.new) path_numbers (record { question = result; sheet = sheet.new; size = length.new; back = back.new }) }
{
    exports::toqshenay_path(m, r, line, node, nodes, states, sheet, length, back)
}

// The same with one lent list, of pairs.
#[unsafe(no_mangle)]
pub extern "C" fn toqshenay_path_pairs(
    m: &[u16],
    r: &[u16],
    line: u16,
    node: u16,
    list: &mut [Pair],
    sheet: &mut u16,
    length: &mut u16,
    back: &mut u16,
) -> u16
    ensures { Told (PairsAnswer m.now r.now line node list.old list.new) path_numbers (record { question = result; sheet = sheet.new; size = length.new; back = back.new }) }
{
    exports::toqshenay_path_pairs(m, r, line, node, list, sheet, length, back)
}

// Compares two machine sheets; where they are unequal, the rule that tells them apart goes to the lent space. The question that
// refuses, and its sheet, or 0; then 0 where the two are equal and 1 where they are not.
#[unsafe(no_mangle)]
pub extern "C" fn toqshenay_compare(
    m1: &[u16],
    m2: &[u16],
    space: &mut [u16],
    sheet: &mut u16,
    unequal: &mut u16,
) -> u16
    ensures { Told (CompareAnswer m1.now m2.now space.old space.new) compare_numbers (record { question = result; sheet = sheet.new; unequal = unequal.new }) }
{
    exports::toqshenay_compare(m1, m2, space, sheet, unequal)
}
