// The text of a list of words.
ghost use Rattle.std.specs.Prelude.{◌≡◌, ◌+◌, ◌≤◌, IfSome, length};
ghost use Rattle.std.proofs.Math.Seq.{paste};
ghost use Rattle.text.specs.Layout.{ender_of, word_text, word_bytes, written_of, text_left};

use itoa::Buffer;

// The bytes that are asked for each word: five digits and a blank, which are always enough.
pub const WORD_BYTES: usize = 6;

// Puts the text of the words at the head of `text`, and answers how long it is; without the bytes that are asked for each word it answers
// none, and every byte stays as it is.
pub fn text_of_words(words: &[u16], text: &mut [u8]) -> Option<usize>
    ensures answer { result ≡ written_of words.now text.old }
    ensures left { text.new ≡ text_left words.now text.old }
    ensures fits { IfSome result (λ count. count ≤ length text.new) }
{
    if text.len() / WORD_BYTES < words.len() {
        return None;
    }
    let mut at = 0;
    for (i, word) in words.iter().enumerate() {
        let blank = ender(i + 1, words.len() - (i + 1));
        at = put_word(text, at, *word, blank);
    }
    Some(at)
}

// The blank after a word, given its number, from 1, and how many words are left after it.
fn ender(number: usize, left: usize) -> u8
    ensures { result ≡ ender_of number left }
{
    let newline = (number % 10 == 0) | (left == 0);
    if newline { b'\n' } else { b' ' }
}

// Puts a word and a blank into `text` from a place on, and answers the place past them.
fn put_word(text: &mut [u8], at: usize, word: u16, blank: u8) -> usize
    requires { at + word_bytes ≤ length text.old }
    ensures value { result ≡ at + length (word_text word blank) }
    ensures text_after { text.new ≡ paste text.old at (word_text word blank) (length (word_text word blank)) }
{
    let mut buffer = Buffer::new();
    let digits = buffer.format(word).as_bytes();
    let end = at + digits.len();
    text[at..end].copy_from_slice(digits);
    text[end] = blank;
    end + 1
}
