// The words of a text, or what is wrong with it and where.
ghost use Rattle.std.specs.Prelude.{◌≡◌, List, ◌++◌, ℕ, ◌+◌, ◌-◌, ◌≤◌, IfOk, length, drop};
ghost use Rattle.std.proofs.lemmas.List.Edits.{sets};
ghost use Rattle.text.specs.Texts.{reading_of, answer_of, left_of};
ghost use Rattle.text.specs.Texts as Texts;
ghost use Rattle.text.specs.inner.Readers.{held};

use crate::reader::{Reader, State};
use std::fmt;

// Where a byte stands. Lines and columns count from 1, and columns count bytes.
#[derive(Clone, Copy, Debug, PartialEq, Eq)]
pub struct Place {
    pub line: usize,
    pub column: usize,
}

// What is wrong with a text: a byte that is no digit, a number above 65,535, or a word that there is no room for. The last two stand
// at their first digit.
#[derive(Clone, Copy, Debug, PartialEq, Eq)]
pub enum Kind {
    NotDecimal,
    Above,
    NoRoom,
}

// A text's first fault: what is wrong, and where.
#[derive(Clone, Copy, Debug, PartialEq, Eq)]
pub struct Fault {
    pub kind: Kind,
    pub at: Place,
}

impl fmt::Display for Place {
    fn fmt<W: fmt::Write>(&self, f: &mut fmt::Formatter<W>) -> fmt::Result {
        let line = self.line;
        let column = self.column;
        write!(f, "line {line}, column {column}")
    }
}

// Puts the words of a text at the head of `words`, and answers how many there are; on a fault every word stays as it is.
pub fn words_of_text(text: &[u8], words: &mut [u16]) -> Result<usize, Fault>
    ensures answer { result ≡ answer_of (reading_of (length words.old) text.now) }
    ensures left { words.new ≡ left_of (reading_of (length words.old) text.now) words.old }
    ensures fits { IfOk result (λ count. count ≤ length words.new) }
{
    let count = scan(text, words.len())?;
    fill(text, words);
    Ok(count)
}

// The answer, with nothing written.
fn scan(text: &[u8], room: usize) -> Result<usize, Fault>
    ensures answer { result ≡ answer_of (reading_of room text.now) }
    ensures fits { IfOk result (λ count. count ≤ room) }
{
    let mut reader = Reader::start(room);
    for byte in text {
        reader = reader.step(*byte);
    }
    match reader.state {
        State::Gap | State::Number { .. } => Ok(room - reader.room),
        State::Stopped { kind, at } => Err(Fault { kind, at }),
    }
}

// Puts the words of a text without fault at the head of `words`.
fn fill(text: &[u8], words: &mut [u16])
    ensures { (ws : List ℕ) → reading_of (length words.old) text.now ≡ Texts.words ws
        → words.new ≡ ws ++ drop (length ws) words.old }
{
    let mut reader = Reader::start(words.len());
    for byte in text {
        reader = reader.step(*byte);
        put(reader, words);
    }
}

// Puts the word that a reader holds behind the words before it.
fn put(reader: Reader, words: &mut [u16])
    requires { length (held reader.state) + reader.room ≤ length words.old }
    ensures { words.new ≡ sets words.old (length words.old - reader.room - 1) (held reader.state) }
{
    match reader.state {
        State::Number { from: _, value } => {
            let at = words.len() - reader.room - 1;
            words[at] = value;
        }
        State::Gap | State::Stopped { .. } => {}
    }
}
