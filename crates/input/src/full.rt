// What a reader gives, at the head of lent bytes.
ghost use Rattle.std.specs.Prelude.{◌<◌, ◌≤◌, IfOk, length, take};
ghost use Rattle.std.specs.Io.KnownBytes.{Consumes, IsAtEnd};

use std::io;
use std::io::Read;

// Reads until the lent bytes are full or the reader ends, and answers how many bytes stand at their head.
pub fn read_full<R: Read>(from: &mut R, lent: &mut [u8]) -> io::Result<usize>
    ensures bound { IfOk result (λ n. n ≤ length lent.new) }
    ensures bytes { IfOk result (λ n. Consumes (R.remaining from.old) (R.remaining from.new) (take n lent.new)) }
    ensures end { IfOk result (λ n. n < length lent.new → IsAtEnd (R.remaining from.new)) }
{
    // A loop by hand: the reader says how far each turn goes.
    let mut done = 0;
    while done < lent.len() {
        let n = from.read(&mut lent[done..])?;
        if n == 0 {
            break;
        }
        done += n;
    }
    Ok(done)
}
