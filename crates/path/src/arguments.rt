// What the program's arguments ask for.
ghost use Rattle.std.specs.Prelude.{◌≡◌, ◌≤◌, ◌-◌, SomeIff};
ghost use Rattle.path.specs.Arguments.{argument_of, asked_of};

// What the arguments ask for: a path for a line at a node.
#[derive(Clone, Copy, Debug, PartialEq, Eq)]
pub struct Asked {
    pub line: u16,
    pub node: u16,
}

// The digit that a byte stands for.
fn digit_of(byte: u8) -> Option<u16>
    ensures { SomeIff result ((48 ≤ byte) × (byte ≤ 57)) (byte - 48) }
{
    let above = b'9' < byte;
    if above {
        return None;
    }
    let digit = byte.checked_sub(b'0')?;
    Some(u16::from(digit))
}

// The number that an argument says: decimal digits alone make one, at least one of them, if it is below 65,536. std's `parse` would also take a sign.
#[tactic(auto, using(crate::proofs::Digits::no_digit, crate::proofs::Digits::begins, crate::proofs::Digits::all_read, crate::proofs::Digits::no_digit_there, crate::proofs::Digits::too_large, crate::proofs::Digits::one_more))]
fn number_of(bytes: &[u8]) -> Option<u16>
    ensures { result ≡ argument_of bytes.now }
{
    if bytes.is_empty() {
        return None;
    }
    let mut value: u16 = 0;
    for byte in bytes {
        let digit = digit_of(*byte)?;
        value = value.checked_mul(10)?.checked_add(digit)?;
    }
    Some(value)
}

// What the arguments ask for, if it is a path: the number of the program's words, its own name among them, and the two after that.
#[tactic(auto, unfolding(crate::specs::Arguments::asked_of, crate::specs::Arguments::both))]
pub fn asked_for(count: usize, first: &[u8], second: &[u8]) -> Option<Asked>
    ensures { result ≡ asked_of count first.now second.now }
{
    if count != 3 {
        return None;
    }
    let line = number_of(first)?;
    let node = number_of(second)?;
    Some(Asked { line, node })
}
