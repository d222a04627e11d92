// The programs' input and output: bytes to words, words to two sheets, a refusal to its line, and a sheet's text to its bytes and back.
#![tactic(auto)]

pub mod args; // args.rt: the program's arguments
pub mod bytes; // bytes.rt: how many bytes are taken, and their words
pub mod cut; // cut.rt: the two sheets of the input, and where the first ends
pub mod full; // full.rt: a reader's bytes, until it ends or the lent space is full
pub mod limits; // limits.rt: how much the programs take and lend
pub mod line; // line.rt: the line of a refusal
pub mod refused; // refused.rt: why a program refuses its input, and its words
pub mod reply; // reply.rt: what is answered to bytes, from what is answered to two sheets
pub mod turn; // turn.rt: a sheet as text and as bytes
