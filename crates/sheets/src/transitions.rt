// The transitions out of a state, gathered by one walker towards states that stand by position.
ghost use Rattle.std.specs.Prelude.{◌≡◌, ◌&&◌, ◌||◌, ℕ, ◌<◌, get_or};
ghost use Rattle.sheets.specs.Words as Words;
ghost use Rattle.sheets.specs.inner.Positions.{stands_at};
ghost use Rattle.sheets.specs.inner.Gathered.{Never};
ghost use Rattle.sheets.specs.inner.Transitions.{LeavingTaken};

use crate::along::Gathers;
use crate::format;
use crate::states::{Positions, States, kept};
use crate::walker::Record;

// The positions at which t stands. Here and below `as` widens a position to an index, which loses nothing.
fn positions(states: States, t: u16) -> Positions
    ensures { (k : ℕ) → Words.bit result.bits k ≡ stands_at states.numbers states.count t k }
{
    let mut out = Positions::none();
    for k in 0..states.count {
        out = out.with(k, t == states.numbers[k as usize]);
    }
    out
}

// The masks with one more at each position of the set, of as many as there are states.
fn with_mask(
    mut masks: [u16; format::CHAINED],
    states: States,
    set: Positions,
    mask: u16,
) -> [u16; format::CHAINED]
    ensures { (k w : ℕ) → k < states.count → Words.bit (get_or result k 0) w ≡ (Words.bit (get_or masks k 0) w || (Words.bit mask w && Words.bit set.bits k)) }
{
    for k in 0..states.count {
        masks[k as usize] |= kept(mask, set.contains(k));
    }
    masks
}

// The transitions out of a state so far, towards states that stand by position: by position the valuations under which the state goes
// there; the positions that are some target, and those that are one under some valuation; the valuations that one mask has, and those
// that two have; and whether each target has a position and none is met twice. `fits` is a flag, since no more is asked of the targets, and
// the masks are an array by position, since nothing is kept on the heap.
#[derive(Clone, Copy)]
pub struct Leaving {
    pub states: States,
    pub masks: [u16; format::CHAINED],
    pub met: Positions,
    pub led: Positions,
    pub once: u16,
    pub twice: u16,
    pub fits: bool,
}

impl Gathers for Leaving {
    ghost Takes = { LeavingTaken };

    ghost IsDone = { Never };

    // One transition more.
    fn take(self, found: Record) -> Leaving {
        let states = self.states;
        let here = positions(states, found.first);
        let before = self.masks;
        let masks = with_mask(before, states, here, found.second);
        let led = here.only_if(found.second != 0);
        let there = !here.is_empty();
        let again = !here.intersection(self.met).is_empty();
        Leaving {
            states,
            masks,
            met: self.met.union(here),
            led: self.led.union(led),
            once: self.once | found.second,
            twice: self.twice | (self.once & found.second),
            fits: self.fits & (there & !again),
        }
    }

    // Every transition is wanted.
    fn done(&self) -> bool {
        false
    }
}
