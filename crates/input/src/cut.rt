// The words of standard input are two sheets, one after the other.
ghost use Rattle.std.specs.Prelude.{◌≡◌, ◌≤◌, length};
ghost use Rattle.input.specs.Cut.{header_end, first_end, Inside, first_in, second_in, whole_in, TwoSheets};

use crate::bytes;
use sheets::{format, machine};

// Where the two sheets of the input stand in the words: the first up to `end`, and the second from there to `count`. They are
// places and no slices: what is said of `sheets_of` speaks of the words as it leaves them, and a result that borrowed them would end that.
#[derive(Clone, Copy, Debug, PartialEq, Eq)]
pub struct Cut {
    pub end: usize,
    pub count: usize,
}

// Bytes that are odd in number or too many: no word is taken of them.
#[derive(Clone, Copy, Debug, PartialEq, Eq)]
pub struct Unreadable;

// How many words the header gives the sheet.
fn header_end(words: &[u16]) -> usize
    ensures { result ≡ header_end words.now }
{
    format::machine_length(format::PLAIN, machine::nodes(words), machine::edges(words))
}

// How many words are the first sheet's; the rest are the second's.
pub fn first_end(words: &[u16]) -> usize
    ensures value { result ≡ first_end words.now }
    ensures within { result ≤ length words.now }
{
    if !machine::q1(words) {
        return words.len();
    }
    let end = header_end(words);
    let reached = end <= words.len();
    if reached { end } else { words.len() }
}

// Puts the words of the bytes at the head of `words`, and answers where the two sheets stand; bytes that are refused leave every word
// as it is. Two bytes are taken for each word.
pub fn sheets_of(input: &[u8], words: &mut [u16]) -> Result<Cut, Unreadable>
    ensures { TwoSheets input.now words.old words.new result }
{
    if !bytes::readable(input.len(), 2 * words.len()) {
        return Err(Unreadable);
    }
    let count = bytes::words_of(input, words);
    let end = first_end(&words[..count]);
    Ok(Cut { end, count })
}

impl Cut {
    // The first sheet.
    pub fn first(self, words: &[u16]) -> &[u16]
        requires { Inside words.now self }
        ensures { result.now ≡ first_in words.now self }
    {
        &words[..self.end]
    }

    // The second sheet.
    pub fn second(self, words: &[u16]) -> &[u16]
        requires { Inside words.now self }
        ensures { result.now ≡ second_in words.now self }
    {
        &words[self.end..self.count]
    }

    // All words of the input, for a program that takes one sheet.
    pub fn whole(self, words: &[u16]) -> &[u16]
        requires { Inside words.now self }
        ensures { result.now ≡ whole_in words.now self }
    {
        &words[..self.count]
    }
}
