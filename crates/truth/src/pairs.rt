// The path handed over as a list of pairs of node and state: a lent slice of structs, which one loop writes.
ghost use Rattle.std.specs.Prelude.{◌≡◌, ◌≤◌, ◌++◌, length, drop};
ghost use Rattle.truth.specs.PathPairs.{pair_nodes, pair_states, PairsAnswer};

use crate::path::{Call, Shown, length_of};
use sheets::refusal::Refusal;

// A place of the list; a state is given by its record number. C code has the same struct.
#[repr(C)]
#[derive(Clone, Copy)]
pub struct Pair {
    pub node: u16,
    pub state: u16,
}

// Writes the nodes and the states to the head of the list, as pairs.
fn write_pairs(list: &mut [Pair], nodes: &[u8], states: &[u16])
    requires as_many { length states.now ≡ length nodes.now }
    requires room { length nodes.now ≤ length list.old }
    ensures by_node { pair_nodes list.new ≡ nodes.now ++ drop (length nodes.now) (pair_nodes list.old) }
    ensures by_state { pair_states list.new ≡ states.now ++ drop (length states.now) (pair_states list.old) }
{
    for (i, (node, state)) in nodes.iter().zip(states).enumerate() {
        list[i] = Pair {
            node: u16::from(*node),
            state: *state,
        };
    }
}

// Shows a path for the line at the node: its pairs go to the list. Line 0 means the last line.
pub fn path(
    m: &[u16],
    r: &[u16],
    line: u16,
    node: u16,
    list: &mut [Pair],
) -> Result<Option<Shown>, Refusal>
    ensures { PairsAnswer m.now r.now line node list.old list.new result }
{
    let call = Call {
        machine: m,
        rules: r,
        line,
        node,
    };
    let made = call.make_within(list.len());
    let answer = made.answer;
    let count = length_of(answer) as usize;
    write_pairs(list, &made.nodes[..count], &made.states[..count]);
    answer
}
