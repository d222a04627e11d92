// Where a machine breaks a rule: the first start node, by number, that is not in a row.
ghost use Rattle.truth.specs.inner.Rows.{row_has};
ghost use Rattle.truth.specs.Breaks.{FirstOutside};

use crate::rows::Row;
use sheets::machine;

// The first start node that is not in the row.
pub fn first_break(m: &[u16], row: Row) -> Option<u16>
    ensures { FirstOutside m.now (row_has row) result }
{
    (1..=machine::nodes(m)).find(|s| machine::start_flag(m, *s) == 1 && !row.has(*s))
}
