// What is printed of labelled lines.
ghost use Rattle.std.specs.Prelude.{◌*◌, ◌≤◌, length};
ghost use Rattle.truth.specs.Sizes.{row_words};

use input::refused::Refused;
use std::io;
use std::io::Write;
use truth::labelling::Labelled;
use truth::rows::Row;
use truth::tables::line_row;

// `line 2: true at 3 of 8 nodes: 1 4 5`. A labelled row has nodes of the machine alone: every bit above them is 0, says `Rows`, field `clear`,
// of truth's definition of labelling.
fn line<W: Write>(out: &mut W, j: u16, nodes: u16, row: Row) -> io::Result<()> {
    let count = row.count();
    write!(out, "line {j}: true at {count} of {nodes} nodes")?;
    if !row.is_empty() {
        write!(out, ":")?;
    }
    for s in row.members() {
        write!(out, " {s}")?;
    }
    writeln!(out)
}

// Every line with the nodes where it is true.
pub fn rows<W: Write>(out: &mut W, rows: &[u64], nodes: u16, lines: u16) -> io::Result<()>
    requires { row_words * lines ≤ length rows.now }
{
    for j in 1..=lines {
        line(out, j, nodes, line_row(rows, j as usize))?;
    }
    Ok(())
}

// Whether the rule is kept, and the count and percent of the nodes where it is true.
pub fn verdict<W: Write>(out: &mut W, nodes: u16, labelled: Labelled) -> io::Result<()> {
    let Labelled {
        kept,
        count,
        percent,
    } = labelled;
    if kept {
        writeln!(out, "the rule is kept: it is true at every start node")?;
    } else {
        writeln!(out, "the rule is not kept")?;
    }
    writeln!(out, "true at {count} of {nodes} nodes, {percent} percent")
}

// Why there is nothing to print.
pub fn refusal<W: Write>(out: &mut W, refused: Refused) -> io::Result<()> {
    writeln!(out, "refused: {refused}")
}
