// What is printed of a path.
use std::io;
use std::io::Write;
use truth::pairs::Pair;

// `no path: the line is false at node 2`
pub fn no_path<W: Write>(out: &mut W, node: u16) -> io::Result<()> {
    writeln!(out, "no path: the line is false at node {node}")
}

// The pairs, each as `pair 1: node 1 state 1`.
pub fn pairs<W: Write>(out: &mut W, pairs: &[Pair]) -> io::Result<()> {
    for (i, pair) in pairs.iter().enumerate() {
        let Pair { node, state } = *pair;
        writeln!(out, "pair {}: node {node} state {state}", i + 1)?;
    }
    Ok(())
}

// `the last pair goes back to pair 2`
pub fn back_to<W: Write>(out: &mut W, back: u16) -> io::Result<()> {
    writeln!(out, "the last pair goes back to pair {back}")
}
