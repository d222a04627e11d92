// What the sheet reader has for the crates above, passed on: why a call is refused, the questions of a machine sheet, its nodes and
// signals, the operations of a line, and the format of a written rule.
pub use sheets::checks::check_machine;
pub use sheets::format::rule_space;
pub use sheets::machine::{check, nodes, signals};
pub use sheets::operation::Operation;
pub use sheets::refusal::{CallQuestion, Refusal, Side};
use sheets::{format, lines, rules};

// The most nodes, the words of a line record; the states and transitions of a written rule's automaton, and the words before its
// lines.
pub const NODES: usize = format::NODES;

pub const LINE_WORDS: usize = format::LINE_WORDS as usize;

pub const NEXT_STATES: u16 = format::NEXT_STATES as u16;

pub const NEXT_TRANSITIONS: u16 = format::NEXT_TRANSITIONS as u16;

pub const NEXT_HEAD: usize = format::NEXT_HEAD;

// The word of a rule sheet's header that has the number of lines.
pub const LINES_WORD: usize = rules::LINES_WORD;

// The places of a line's operation and of its operands: all that a line has, also those that no crate here takes.
pub const OPERATION: usize = format::OPERATION as usize;

pub const OPERAND: usize = format::OPERAND as usize;

pub const SECOND_OPERAND: usize = lines::SECOND_OPERAND as usize;

pub const THIRD_OPERAND: usize = lines::THIRD_OPERAND as usize;

pub const FOURTH_OPERAND: usize = lines::FOURTH_OPERAND as usize;

pub const FIFTH_OPERAND: usize = lines::FIFTH_OPERAND as usize;
