// The explaining program: two machine sheets from standard input; where the two are unequal, the written rule in words, which machine keeps
// it, and the start node where the other breaks it.
#![tactic(auto)]

mod verdict; // verdict.rt: which machine keeps a rule, and where the other breaks it
mod answer; // answer.rt: what is said of the input, and the rule left in the space
mod printing; // printing.rt: the answer in words

use input::{full, limits};
use std::io;

// Reads one byte more than is taken, so that a longer input is noticed.
fn main(rt: HostRuntime) -> io::Result<()> {
    let mut input = [0u8; limits::MACHINES_BYTES + 1];
    let n = full::read_full(&mut rt.stdin(), &mut input)?;
    let mut rule = [0u16; limits::RULE_WORDS];
    let said = answer::answer_to(&input[..n], &mut rule);
    printing::print(&mut rt.stdout(), said, &rule)
}
