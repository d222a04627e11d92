// Words for a reader, to a writer: a text, a line. What each adds to a writer is said, where the writer says what it holds.
ghost use Rattle.std.specs.Prelude.{OnOk};
ghost use Rattle.std.specs.Io.KnownBytes.{Appends};
ghost use Rattle.text.specs.Lines.{shown};

use crate::line::Line;
use std::io;
use std::io::Write;

// Prints bytes as they are.
pub fn text<W: Write>(out: &mut W, bytes: &[u8]) -> io::Result<()>
    ensures { OnOk result (Appends (W.contents out.old) (W.contents out.new) bytes.now) }
{
    out.write_all(bytes)
}

// Prints a line.
pub fn line<W: Write>(out: &mut W, line: Line) -> io::Result<()>
    ensures { OnOk result (Appends (W.contents out.old) (W.contents out.new) (shown line)) }
{
    text(out, line.as_slice())
}
