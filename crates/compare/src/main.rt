// The comparing program: two machine sheets from standard input, one line to standard output.
#![tactic(auto)]

mod answer; // answer.rt: what is answered to the input, and the line that says it

use input::{full, limits};
use std::io;
use text::say;

// Reads one byte more than is taken, so that a longer input is noticed.
fn main(rt: HostRuntime) -> io::Result<()> {
    let mut input = [0u8; limits::MACHINES_BYTES + 1];
    let n = full::read_full(&mut rt.stdin(), &mut input)?;
    say::line(&mut rt.stdout(), answer::line_for(&input[..n]))
}
