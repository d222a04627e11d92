// The bytes of standard input: how many are taken, the words that they make, and the bytes of words.
ghost use Rattle.std.specs.Prelude.{◌≡◌, ◌+◌, ◌*◌, ◌/◌, ◌%◌, ◌<◌, min, ◌++◌, length, take, drop, set};
ghost use Rattle.input.specs.Bytes.{words_of, bytes_of};
ghost use Rattle.input.specs.Bytes as Bytes;

// An even number of at most `most` bytes is taken; any other is answered by the refusal 0 0.
pub fn readable(count: usize, most: usize) -> bool
    ensures { result ≡ Bytes.readable most count }
{
    (count <= most) & (count % 2 == 0)
}

// The word of two bytes.
fn word_of(low: u8, high: u8) -> u16
    ensures { result ≡ Bytes.word_of low high }
{
    u16::from_le_bytes([low, high])
}

// Puts the words of the bytes at the head of `words`, as many as there is space for, and answers how many; the words past them
// stay as they are.
pub fn words_of(bytes: &[u8], words: &mut [u16]) -> usize
    ensures counted { result ≡ min (length bytes.now / 2) (length words.old) }
    ensures written { words.new ≡ take result (words_of bytes.now) ++ drop result words.old }
{
    let n = (bytes.len() / 2).min(words.len());
    // By an index: a `zip` over the words to write holds them, and then the loop's invariant cannot name them.
    for i in 0..n {
        words[i] = word_of(bytes[2 * i], bytes[2 * i + 1]);
    }
    n
}

// Puts the bytes of the words at the head of `bytes`, those of as many words as there is space for, and answers how many bytes there are;
// the bytes past them stay as they are.
pub fn bytes_of(words: &[u16], bytes: &mut [u8]) -> usize
    ensures counted { result ≡ 2 * min (length words.now) (length bytes.old / 2) }
    ensures written { bytes.new ≡ take result (bytes_of words.now) ++ drop result bytes.old }
{
    let n = words.len().min(bytes.len() / 2);
    for (i, word) in words[..n].iter().enumerate() {
        put_word(bytes, 2 * i, *word);
    }
    2 * n
}

// Puts the two bytes of a word at a place.
fn put_word(bytes: &mut [u8], at: usize, word: u16)
    requires { at + 1 < length bytes.old }
    ensures { bytes.new ≡ set (set bytes.old at (word % 256)) (at + 1) (word / 256) }
{
    let [low, high] = word.to_le_bytes();
    bytes[at] = low;
    bytes[at + 1] = high;
}
