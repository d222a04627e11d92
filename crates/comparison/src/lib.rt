// Comparison: equal, or unequal with the rule that tells the two machines apart.
#![tactic(auto)]

mod sizes; // sizes.rt: the sizes of the tables
mod machines; // machines.rt: the two machines, and what comes of each of them
mod blocks; // blocks.rt: blocks in tables, split by sets
mod signatures; // signatures.rt: the blocks that the edges of a node lead into
mod refine; // refine.rt: the nodes of two machines in blocks that nothing splits
mod writing; // writing.rt: lines, and writing them
mod needed; // needed.rt: the lines that the last line needs
pub mod compare; // compare.rt: the comparison: its questions, its answer, the written rule
