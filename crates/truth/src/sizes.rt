// The sizes of rows and tables. The definitions have them in specs/Sizes, with where things stand in a table.
use sheets::format;

// The positions on an automaton's chain, from 0.
pub const POSITIONS: usize = format::CHAINED;

// The bits of a word of a row, the last member of its low word, the first of its high word, its members, its words.
pub const ROW_WORD_BITS: u32 = 64;

pub const LOW_LAST: u16 = ROW_WORD_BITS as u16;

pub const HIGH_FIRST: u16 = LOW_LAST + 1;

pub const MEMBERS: u16 = (ROW_WORDS as u16) * LOW_LAST;

pub const ROW_WORDS: usize = 2;

// A table with a row for each two positions, that of p and p2 at POSITIONS * p + p2: its rows, its words.
pub const TABLE_ROWS: u16 = (POSITIONS * POSITIONS) as u16;

pub const TABLE_WORDS: usize = ROW_WORDS * POSITIONS * POSITIONS;

// A table with a row for each position, or for each valuation, of which there are no more: its words.
pub const SET_WORDS: usize = ROW_WORDS * POSITIONS;

// A table with a number for each pair of a position p and a node s, that of a pair at format::NODES * p + (s - 1): its numbers.
pub const PAIRS: usize = POSITIONS * format::NODES;

// The space in which a path call labels the lines above the asked one, a row a line: its words.
pub const LINES_WORDS: usize = ROW_WORDS * format::LINES;

// A table with a place for each number of a node.
pub const NODE_PLACES: usize = 256;
