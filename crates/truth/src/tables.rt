// Tables of rows in flat arrays and lent words, two words a row; and the rows of lines in the lent space, lines from 1. The rows that C lends
// are words, so a table that the crate keeps is of words too: one load and one store serve both kinds.
ghost use Rattle.std.specs.Prelude.{◌≡◌, ◌-◌, ◌+◌, ◌*◌, ◌≤◌, length};
ghost use Rattle.truth.specs.Sizes.{row_words};
ghost use Rattle.truth.specs.inner.Rows.{HasRow, IsRow, with_row};
ghost use Rattle.truth.specs.inner.Links.{Joined};

use crate::rows::Row;
use crate::sizes::ROW_WORDS;

// Row k of a table, rows from 0.
pub fn load(rows: &[u64], k: usize) -> Row
    requires { row_words * (k + 1) ≤ length rows.now }
    ensures { IsRow rows.now k result }
{
    let low = rows[ROW_WORDS * k];
    let high = rows[ROW_WORDS * k + 1];
    Row { low, high }
}

pub fn store(rows: &mut [u64], k: usize, row: Row)
    requires { row_words * (k + 1) ≤ length rows.old }
    ensures { rows.new ≡ with_row rows.old k row }
{
    rows[ROW_WORDS * k] = row.low;
    rows[ROW_WORDS * k + 1] = row.high;
}

// The row of line j in the lent space.
pub fn line_row(rows: &[u64], j: usize) -> Row
    requires { HasRow rows.now j }
    ensures { IsRow rows.now (j - 1) result }
{
    load(rows, j - 1)
}

pub fn set_line_row(rows: &mut [u64], j: usize, row: Row)
    requires { HasRow rows.old j }
    ensures { rows.new ≡ with_row rows.old (j - 1) row }
{
    store(rows, j - 1, row);
}

// One member more in row j, rows from 1.
pub fn add(rows: &mut [u64], j: usize, s: u16)
    requires { HasRow rows.old j }
    ensures { Joined (j - 1) s rows.old rows.new }
{
    let row = line_row(rows, j);
    set_line_row(rows, j, row.with(s));
}
