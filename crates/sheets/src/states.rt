// The states of an automaton by position, where they are as many as one automaton may have, and sets of positions.
ghost use Rattle.std.specs.Prelude.{◌≡◌, false, not, ◌&&◌, ◌||◌, ℕ, ◌<◌, ◌≤◌, eqb};
ghost use Rattle.sheets.specs.Format.{chained_most};
ghost use Rattle.sheets.specs.Words as Words;
ghost use Rattle.sheets.specs.inner.Positions.{some_below};

use crate::{format, words};

// Position p has the state with the record number numbers[p], below the count. The array has room for the most, since nothing is kept on
// the heap.
#[derive(Clone, Copy)]
pub struct States {
    pub count: u16,
    pub numbers: [u16; format::CHAINED],
    ghost few: { count ≤ chained_most },
}

// The word where the answer is yes, and else 0. Here and in `only_if` and `with` the answer is a test's own, which chooses no step: it
// keeps bits or drops them.
pub fn kept(word: u16, yes: bool) -> u16
    ensures { (k : ℕ) → Words.bit result k ≡ (yes && Words.bit word k) }
{
    if yes { word } else { 0 }
}

// A set of positions: bit i is set where position i is in it.
#[derive(Clone, Copy, Debug, PartialEq, Eq)]
pub struct Positions {
    pub bits: u16,
}

impl Positions {
    pub fn none() -> Positions
        ensures { (k : ℕ) → Words.bit result.bits k ≡ false }
    {
        Positions { bits: 0 }
    }

    pub fn contains(self, i: u16) -> bool
        ensures { result ≡ Words.bit self.bits i }
    {
        words::bit(self.bits, i)
    }

    pub fn is_empty(self) -> bool
        ensures { result ≡ not (some_below chained_most (Words.bit self.bits)) }
    {
        self.bits == 0
    }

    // The set where the answer is yes, and else none.
    pub fn only_if(self, yes: bool) -> Positions
        ensures { (k : ℕ) → Words.bit result.bits k ≡ (yes && Words.bit self.bits k) }
    {
        Positions {
            bits: kept(self.bits, yes),
        }
    }

    // The set, and position i where the answer is yes.
    pub fn with(self, i: u16, yes: bool) -> Positions
        requires { i < chained_most }
        ensures { (k : ℕ) → Words.bit result.bits k ≡ (Words.bit self.bits k || (yes && eqb k i)) }
    {
        Positions {
            bits: self.bits | kept(1u16 << i, yes),
        }
    }

    pub fn union(self, other: Positions) -> Positions
        ensures { (k : ℕ) → Words.bit result.bits k ≡ (Words.bit self.bits k || Words.bit other.bits k) }
    {
        Positions {
            bits: self.bits | other.bits,
        }
    }

    pub fn intersection(self, other: Positions) -> Positions
        ensures { (k : ℕ) → Words.bit result.bits k ≡ (Words.bit self.bits k && Words.bit other.bits k) }
    {
        Positions {
            bits: self.bits & other.bits,
        }
    }
}
