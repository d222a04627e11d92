// How much the programs take and lend: words and bytes of sheets, bytes of a text, words of a written rule.
use sheets::format;

// The longest machine sheet with the longest rule sheet; one sheet alone may be as long.
pub const SHEETS_WORDS: usize = format::SHEETS_LONGEST;

pub const SHEETS_BYTES: usize = 2 * SHEETS_WORDS;

// Two machine sheets that are compared. Document 01: "at most 20,000 bytes".
pub const MACHINES_WORDS: usize = 10000;

pub const MACHINES_BYTES: usize = 2 * MACHINES_WORDS;

// The text of a sheet.
pub const TEXT_BYTES: usize = 200000;

// The longest written rule.
pub const RULE_WORDS: usize = format::RULE_SPACE_LONGEST;
