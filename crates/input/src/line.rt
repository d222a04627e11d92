// The line that says a refusal, for the programs that print one.
ghost use Rattle.text.specs.Lines.{Holds};
ghost use Rattle.input.specs.Lines.{refused_line};

use text::line::Line;

// The line `refused Q S`, of any two numbers: narrower types would ask more. The longest is `refused 65535 65535` with its line end, 20 bytes.
pub fn refused(question: u16, sheet: u16) -> Line
    ensures { Holds result (refused_line question sheet) }
{
    Line::of(b"refused ")
        .with_number(question)
        .with_byte(b' ')
        .with_number(sheet)
        .with_byte(b'\n')
}
