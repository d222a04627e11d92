// A sheet as text and as bytes: one form turned into the other.
ghost use Rattle.std.specs.Prelude.{◌≡◌, ◌≤◌, IfOk, length};
ghost use Rattle.input.specs.Turns.{to_bytes, to_text};
ghost use Rattle.input.specs.declared.turn.TurnError.TheVariants as Errors;

use crate::{bytes, limits};
use std::fmt;
use text::read::{Fault, Kind};
use text::{read, write};

// Why nothing is written: the text's first fault, a text or a sheet of more bytes than are taken, an odd number of bytes, or too little
// space.
#[derive(Clone, Copy, Debug, PartialEq, Eq)]
pub enum TurnError {
    Fault(Fault),
    LongText,
    LongSheet,
    Odd,
    NoRoom,
}

impl From<Fault> for TurnError {
    ghost from_gives = { λ fault error. error ≡ Errors.Fault fault };

    fn from(fault: Fault) -> TurnError {
        TurnError::Fault(fault)
    }
}

impl fmt::Display for TurnError {
    fn fmt<W: fmt::Write>(&self, f: &mut fmt::Formatter<W>) -> fmt::Result {
        match *self {
            TurnError::Fault(found) => {
                let place = found.at;
                write!(f, "{place}: ")?;
                match found.kind {
                    Kind::NotDecimal => f.write_str("this is not a decimal number"),
                    Kind::Above => f.write_str("the number is above 65535"),
                    Kind::NoRoom => write!(f, "more than {} words", limits::SHEETS_WORDS),
                }
            }
            TurnError::LongText => write!(f, "more than {} bytes", limits::TEXT_BYTES),
            TurnError::LongSheet => write!(
                f,
                "more than {} bytes, {} words",
                limits::SHEETS_BYTES,
                limits::SHEETS_WORDS
            ),
            TurnError::Odd => f.write_str("an odd number of bytes"),
            TurnError::NoRoom => f.write_str("too little space"),
        }
    }
}

// Puts the bytes of the sheet that a text says at the head of `sheet`, and answers how many there are.
pub fn bytes_of_text(text: &[u8], sheet: &mut [u8]) -> Result<usize, TurnError>
    ensures answer { result ≡ (to_bytes text.now sheet.old).answer }
    ensures left { sheet.new ≡ (to_bytes text.now sheet.old).left }
    ensures fits { IfOk result (λ count. count ≤ length sheet.new) }
{
    if limits::TEXT_BYTES < text.len() {
        return Err(TurnError::LongText);
    }
    if sheet.len() < limits::SHEETS_BYTES {
        return Err(TurnError::NoRoom);
    }
    let mut words = [0u16; limits::SHEETS_WORDS];
    let count = read::words_of_text(text, &mut words)?;
    Ok(bytes::bytes_of(&words[..count], sheet))
}

// Puts the text of a sheet's bytes at the head of `text`, and answers how long it is.
pub fn text_of_bytes(sheet: &[u8], text: &mut [u8]) -> Result<usize, TurnError>
    ensures answer { result ≡ (to_text sheet.now text.old).answer }
    ensures left { text.new ≡ (to_text sheet.now text.old).left }
    ensures fits { IfOk result (λ count. count ≤ length text.new) }
{
    if limits::SHEETS_BYTES < sheet.len() {
        return Err(TurnError::LongSheet);
    }
    let odd = sheet.len() % 2 == 1;
    if odd {
        return Err(TurnError::Odd);
    }
    let mut words = [0u16; limits::SHEETS_WORDS];
    let count = bytes::words_of(sheet, &mut words);
    write::text_of_words(&words[..count], text).ok_or(TurnError::NoRoom)
}
