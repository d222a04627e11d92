// An automaton by position: what the crates above know of it.
ghost use Rattle.std.specs.Prelude.{◌≡◌, ◌&&◌, ℕ, ◌+◌, ◌*◌, ◌<◌, ◌≤◌, length, get_or, eqb};
ghost use Rattle.sheets.specs.Format.{chained_most};
ghost use Rattle.sheets.specs.Words as Words;
ghost use Rattle.sheets.specs.Rules as Rules;
ghost use Rattle.sheets.specs.Positioned.{state_count, state_of, positioned};
ghost use Rattle.sheets.specs.inner.Tabled.{Tabled};

use crate::states::States;
use crate::{automata, condition, format, rules};

// How many masks lead from position to position.
pub const MASKS: usize = format::CHAINED * format::CHAINED;

// An automaton by position, of which the first is the initial one: its variables, the number of its states, the set of the accepting
// positions, the mask from position p to position q at CHAINED p + q, and by position the number that names a state in a list. Arrays with
// a count, since nothing is kept on the heap; the set is a word, as the masks beside it are.
#[derive(Clone, Copy)]
pub struct ByPosition {
    pub variables: u16,
    pub count: u16,
    pub accepting: u16,
    pub masks: [u16; MASKS],
    pub numbers: [u16; format::CHAINED],
}

// Writes the masks out of position p towards the first n positions, one by one: a copy of the row would be of two slices, each with bounds
// of its own.
fn put_masks(out: &mut [u16; MASKS], p: u16, n: u16, masks: [u16; format::CHAINED])
    requires from { p < chained_most }
    requires towards { n ≤ chained_most }
    requires size { length out.old ≡ chained_most * chained_most }
    ensures size { length out.new ≡ chained_most * chained_most }
    ensures here { (k : ℕ) → k < n → get_or out.new (chained_most * p + k) 0 ≡ get_or masks k 0 }
    ensures before { (i : ℕ) → i < chained_most * p → get_or out.new i 0 ≡ get_or out.old i 0 }
{
    for k in 0..n {
        let mask = masks[k as usize];
        out[(format::CHAINED_MOST * p + k) as usize] = mask;
    }
}

// The masks between the states.
fn masks_between(r: &[u16], states: States) -> [u16; MASKS]
    ensures { (p q w : ℕ) → p < states.count → q < states.count → Words.bit (get_or result (chained_most * p + q) 0) w ≡ Words.any_of (Rules.transitions_of r.now (get_or states.numbers p 0)) (λ y. Words.bit (Rules.mask r.now y) w && eqb (Rules.transition_target r.now y) (get_or states.numbers q 0)) }
{
    let mut out = [0u16; MASKS];
    for p in 0..states.count {
        let out_of = automata::leaving(r, states, states.numbers[p as usize]);
        put_masks(&mut out, p, states.count, out_of.masks);
    }
    out
}

// Automaton x by position.
pub fn by_position(r: &[u16], x: u16) -> ByPosition
    requires { state_count r.now x ≤ chained_most }
    ensures { Tabled (positioned r.now x) (state_count r.now x) (state_of r.now x) result }
{
    let states = automata::few_states(r, x);
    let masks = masks_between(r, states);
    let numbers = states.numbers;
    ByPosition {
        variables: rules::variables(r, x),
        count: states.count,
        accepting: condition::accepting_row(r, states).bits,
        masks,
        numbers,
    }
}

// How many states automaton x has.
pub fn state_count(r: &[u16], x: u16) -> u16
    ensures { result ≡ state_count r.now x }
{
    automata::states_of(r, x).count
}
