// Rules in words: a rule that comparison writes, as one sentence and line by line.
#![tactic(auto)]

mod page; // page.rt: lines of text in a space of its own
mod parts; // parts.rt: what holds together where a line holds
pub mod printing; // printing.rt: a rule in words, to a writer
mod sentence; // sentence.rt: the rule as one sentence
