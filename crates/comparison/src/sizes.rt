// The sizes of comparison's tables, beside what it takes of the format and of truth's tables. The definitions have them in
// specs/inner/Sizes.
use truth::{header, sizes};

// Of the format: the most nodes, the words of a line record, and the words of a written rule before its lines.
pub const NODES: usize = header::NODES;

pub const LINE_WORDS: usize = header::LINE_WORDS;

pub const NEXT_HEAD: usize = header::NEXT_HEAD;

// The space in which lines are written, in words.
pub const WRITTEN_SPACE: usize = 5632;

// A table with a place for each number of a line.
pub const LINE_PLACES: usize = 1024;

// A table with a place for each block, and one with a row for each block.
pub const BLOCK_PLACES: usize = sizes::TABLE_ROWS as usize;

pub const BLOCK_WORDS: usize = sizes::TABLE_WORDS;
