// What a program answers to its input, from what it answers to two sheets.
ghost use Rattle.std.specs.Prelude.{◌≡◌, ◌*◌, Err, length};
ghost use Rattle.input.specs.Replies.{Reply, Gives};
ghost use Rattle.input.specs.Refusals.{Asked};
ghost use Rattle.input.specs.declared.refused.Refused.TheVariants.{Bytes};

use crate::cut;
use crate::refused::Refused;
use sheets::refusal::Refusal;

// Cuts the bytes into two sheets at the head of the words, two bytes for each, and answers what the call answers to the two and to what is
// lent; bytes that are refused leave that as it is.
pub fn reply_to<S, T, F: FnOnce(&[u16], &[u16], &mut [S]) -> Result<T, Refusal>>(
    input: &[u8],
    words: &mut [u16],
    lent: &mut [S],
    call: F,
) -> Result<T, Refused>
    requires { F.IsAlwaysCallable call }
    ensures { Reply (2 * length words.old) input.now ((result ≡ Err Bytes) × (lent.new ≡ lent.old)) (λ M R. Asked (Gives F.FnOnce call M R lent.old lent.new) result) }
{
    let cut = cut::sheets_of(input, words)?;
    let answer = call(cut.first(words), cut.second(words), lent)?;
    Ok(answer)
}
