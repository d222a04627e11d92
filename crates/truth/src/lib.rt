// Truth: labelling and paths.
#![tactic(auto)]

pub mod sizes; // sizes.rt: the sizes of rows and tables
pub mod rows; // rows.rt: a set of nodes as a value
pub mod marks; // marks.rt: marks of nodes, and which of them there are
pub mod structure; // structure.rt: the machine's structure in rows
pub mod tables; // tables.rt: tables of rows
mod product; // product.rt: the automaton of a path line beside the machine
mod trimming; // trimming.rt: the largest set of pairs each of which has a step into it
mod growth; // growth.rt: the pairs from which steps lead into a set
mod lines; // lines.rt: the row of one line
pub mod labelling; // labelling.rt: the rows of a rule sheet, and the answer
pub mod breaks; // breaks.rt: the start node where a machine breaks a rule
mod trail; // trail.rt: a trail through the pairs that shows a path
pub mod header; // header.rt: what the crate above takes of the sheet reader
pub mod path; // path.rt: the path call
pub mod pairs; // pairs.rt: the path call over a list of pairs
