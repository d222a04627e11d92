// A rule in words, to a writer: in one sentence, and line by line. Each function is proved safe and ends.
use crate::page::Page;
use crate::sentence;
use sheets::lines::Line;
use sheets::{lines, rules};
use std::fmt::Display;
use std::io::Write;
use std::{fmt, io};
use text::say::text;

// The rule in one sentence.
pub fn print_sentence<W: Write>(out: &mut W, rule: &[u16]) -> io::Result<()> {
    let mut page = Page::empty();
    text(out, sentence::sentence(rule, &mut page))
}

// One numbered line for each line of the sheet.
pub fn print_rule<W: Write>(out: &mut W, rule: &[u16]) -> io::Result<()> {
    for j in 1..=rules::lines(rule) {
        match lines::decode(rule, j) {
            Some(line) => {
                let said = Said(line);
                writeln!(out, "{j}: {said}")?;
            }
            None => writeln!(out, "{j}: malformed")?,
        }
    }
    Ok(())
}

// What a line says. The one automaton of a written rule is Next, so that a path line speaks of the next nodes; its first argument is the
// line of the one variable.
#[derive(Clone, Copy)]
struct Said(Line);

impl Display for Said {
    fn fmt<W: fmt::Write>(&self, f: &mut fmt::Formatter<W>) -> fmt::Result {
        match self.0 {
            Line::Signal(i) => write!(f, "signal {i} is on"),
            Line::Negation(k) => write!(f, "line {k} does not hold"),
            Line::Either(i, k) => write!(f, "line {i} or line {k} holds"),
            Line::SomePath(p) => {
                let k = p.lines[0];
                write!(f, "some next node has line {k}")
            }
            Line::SomePathNot(p) => {
                let k = p.lines[0];
                write!(f, "some next node does not have line {k}")
            }
        }
    }
}
