// Sheets as text: decimal words with blanks and comments, read into words and written from them; and words for a reader, printed.
#![tactic(auto)]

pub mod line; // line.rt: a short line of bytes as a value
pub mod read; // read.rt: the words of a text, or its first fault
mod reader; // reader.rt: a text read byte by byte
pub mod say; // say.rt: a text or a line, to a writer
pub mod write; // write.rt: the text of words
