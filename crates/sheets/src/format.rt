// The format of both kinds of sheet, in numbers: limits, the words of each record and the places of its parts, where the records of a kind
// begin, how long a sheet is, and the longest sheets. Each stands here once, and all other code cites it.
ghost use Rattle.std.specs.Prelude.{◌≡◌};
ghost use Rattle.sheets.specs.Format as Format;

// How many there may be: nodes, signals and edges of a machine; automata, states, transitions and lines of a rule sheet; variables and
// states of one automaton.
pub const NODES_MOST: u16 = 128;

pub const SIGNALS_MOST: u16 = 16;

pub const EDGES_MOST: u16 = 2048;

pub const AUTOMATA_MOST: u16 = 16;

pub const STATES_MOST: u16 = 256;

pub const TRANSITIONS_MOST: u16 = 1024;

pub const LINES_MOST: u16 = 1024;

pub const VARIABLES_MOST: u16 = 4;

pub const CHAINED_MOST: u16 = 16;

// The same as lengths of arrays. A cast, since a const calls no `from`.
pub const NODES: usize = NODES_MOST as usize;

pub const LINES: usize = LINES_MOST as usize;

pub const VARIABLES: usize = VARIABLES_MOST as usize;

pub const CHAINED: usize = CHAINED_MOST as usize;

// The bits of a word.
pub const WORD_BITS: u16 = 16;

// The words of the two headers, and those of a record of each kind but a node's.
pub const MACHINE_HEADER: usize = 3;

pub const RULE_HEADER: usize = 4;

pub const EDGE_WORDS: u16 = 2;

pub const AUTOMATON_WORDS: u16 = 2;

pub const STATE_WORDS: u16 = 3;

pub const TRANSITION_WORDS: u16 = 3;

pub const LINE_WORDS: u16 = 6;

// What a node's record looks like: its words, and the places of its signals, its start flag and its first edge.
#[derive(Clone, Copy, Debug, PartialEq, Eq)]
pub struct NodeForm {
    pub words: u16,
    pub signals: u16,
    pub flag: u16,
    pub first: u16,
}

// The record of a plain machine sheet.
pub const PLAIN: NodeForm = NodeForm {
    words: 3,
    signals: 0,
    flag: 1,
    first: 2,
};

// The places of the parts of the other records; a line's are its operation and the first of its operands, which follow one another.
pub const EDGE_TARGET: u16 = 0;

pub const EDGE_NEXT: u16 = 1;

pub const VARIABLES_PLACE: u16 = 0;

pub const INITIAL: u16 = 1;

pub const ACCEPTING: u16 = 0;

pub const FIRST_TRANSITION: u16 = 1;

pub const NEXT_STATE: u16 = 2;

pub const TRANSITION_TARGET: u16 = 0;

pub const NEXT_TRANSITION: u16 = 2;

pub const OPERATION: u16 = 0;

pub const OPERAND: u16 = 1;

// Where nodes and automata begin: after the header.
pub const NODES_FROM: u32 = MACHINE_HEADER as u32;

pub const AUTOMATA_FROM: u32 = RULE_HEADER as u32;

const EDGE: usize = EDGE_WORDS as usize;

const AUTOMATON: u32 = AUTOMATON_WORDS as u32;

const STATE: u32 = STATE_WORDS as u32;

const TRANSITION: u32 = TRANSITION_WORDS as u32;

const LINE: u32 = LINE_WORDS as u32;

// Where the edges of a machine sheet with n nodes begin.
pub fn edges_from(f: NodeForm, n: u16) -> u32
    ensures { result ≡ Format.edges_from f n }
{
    NODES_FROM + u32::from(f.words) * u32::from(n)
}

// How long a machine sheet with n nodes and e edges is.
pub fn machine_length(f: NodeForm, n: u16, e: u16) -> usize
    ensures { result ≡ Format.form_length f n e }
{
    edges_from(f, n) as usize + EDGE * usize::from(e)
}

// Where the states of a rule sheet with k automata begin.
pub fn states_from(k: u16) -> u32
    ensures { result ≡ Format.states_from k }
{
    AUTOMATA_FROM + AUTOMATON * u32::from(k)
}

// Where its transitions begin, with m states.
pub fn transitions_from(k: u16, m: u16) -> u32
    ensures { result ≡ Format.transitions_from k m }
{
    states_from(k) + STATE * u32::from(m)
}

// Where its lines begin, with e transitions.
pub fn lines_from(k: u16, m: u16, e: u16) -> u32
    ensures { result ≡ Format.lines_from k m e }
{
    transitions_from(k, m) + TRANSITION * u32::from(e)
}

// How long it is, with l lines.
pub fn rules_length(k: u16, m: u16, e: u16, l: u16) -> u32
    ensures { result ≡ Format.rules_length Format.line_words k m e l }
{
    lines_from(k, m, e) + LINE * u32::from(l)
}

// The longest sheets, in words, and both together.
pub const MACHINE_LONGEST: usize = MACHINE_HEADER
    + (PLAIN.words as usize) * NODES
    + (EDGE_WORDS as usize) * (EDGES_MOST as usize);

pub const RULES_LONGEST: usize = RULE_HEADER
    + (AUTOMATON_WORDS as usize) * (AUTOMATA_MOST as usize)
    + (STATE_WORDS as usize) * (STATES_MOST as usize)
    + (TRANSITION_WORDS as usize) * (TRANSITIONS_MOST as usize)
    + (LINE_WORDS as usize) * LINES;

pub const SHEETS_LONGEST: usize = MACHINE_LONGEST + RULES_LONGEST;

// A written rule: the states and transitions of its automaton Next, the words before its lines, and for each node the lines that it may
// take besides one a signal.
pub const NEXT_STATES: usize = 4;

pub const NEXT_TRANSITIONS: usize = 5;

pub const NEXT_HEAD: usize = RULE_HEADER
    + (AUTOMATON_WORDS as usize)
    + (STATE_WORDS as usize) * NEXT_STATES
    + (TRANSITION_WORDS as usize) * NEXT_TRANSITIONS;

pub const LINES_A_NODE: usize = 7;

// The space for a rule written of machines with a signals, and n nodes together.
pub fn rule_space(a: u16, n: u16) -> usize
    ensures { result ≡ Format.rule_space a n }
{
    NEXT_HEAD + (LINE_WORDS as usize) * (usize::from(a) + LINES_A_NODE * usize::from(n))
}

// The space for the longest.
pub const RULE_SPACE_LONGEST: usize = NEXT_HEAD
    + (LINE_WORDS as usize) * ((SIGNALS_MOST as usize) + LINES_A_NODE * NODES);
