// The program's arguments.
ghost use Rattle.std.specs.Prelude.{◌≤◌, IfSome, length};

use std::env::{Env, FillError};

// Puts argument i at the head of the lent bytes and answers the bytes that it has there; none where it is missing or longer than they are.
pub fn arg<'a, E: Env>(env: &E, i: usize, lent: &'a mut [u8]) -> Option<&'a [u8]>
    ensures { IfSome result (λ word. length word.now ≤ length lent.old) }
{
    let n = env.arg(i, lent).ok()?;
    Some(&lent[..n])
}

// Whether the program has no argument i.
fn missing<E: Env>(env: &E, i: usize) -> bool {
    matches!(env.arg(i, &mut [0u8; 1]), Err(FillError::NotPresent))
}

// How many arguments the program was started with, its own name among them.
pub fn arg_count<E: Env>(env: &E) -> usize {
    (0..usize::MAX)
        .find(|i| missing(env, *i))
        .unwrap_or(usize::MAX)
}
