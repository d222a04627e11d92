// Turns the text of a sheet into its bytes, `sheet bytes`, or its bytes into text, `sheet text`, from standard input to standard output;
// or checks one machine sheet, `sheet machine`, or one rule sheet, `sheet rules`, of bytes or, with the word `text` behind, of a text.
// What is wrong with the arguments, with a text, or with bytes that are to be text is one line on standard error, and then nothing is
// written to standard output.
#![tactic(auto)]

mod answer; // answer.rt: what is answered to a sheet that is checked, and the line that says it
mod asked; // asked.rt: what the arguments ask for

use answer::{Check, Form, NotAccepted};
use asked::Asked;
use input::refused::OfOneSheet;
use input::{args, full, limits, turn};
use std::io;
use std::io::{Read, Write};
use text::{say, write};

const USAGE: &str =
    "usage: sheet bytes (text in, bytes out), sheet text (bytes in, text out), or sheet machine, sheet rules (bytes in), sheet machine text, sheet rules text (text in): accepted, or refused and why";

fn main(rt: HostRuntime) -> io::Result<()> {
    let mut first_space = [0u8; 8];
    let mut second_space = [0u8; 8];
    let first = args::arg(&rt, 1, &mut first_space).unwrap_or(b"");
    let second = args::arg(&rt, 2, &mut second_space).unwrap_or(b"");
    let asked = asked::asked_for(args::arg_count(&rt), first, second);
    let mut streams = Streams {
        out: &mut rt.stdout(),
        err: &mut rt.stderr(),
    };
    match asked {
        Some(asked) => streams.answer(&mut rt.stdin(), asked),
        None => writeln!(streams.err, "{USAGE}"),
    }
}

// Standard output, and standard error for what is wrong with what is asked, with a text, or with bytes that are to be text.
#[derive(Drop)]
struct Streams<'a, W, E> {
    out: &'a mut W,
    err: &'a mut E,
}

impl<W: Write, E: Write> Streams<'_, W, E> {
    // What is asked of the input. One byte more is read than is taken of a text, and more than is taken of bytes that are checked, so that a
    // longer input is noticed. Of bytes that are turned into text just one more is read than is taken: what they come from may stay open
    // behind them, and may be read further by others.
    fn answer<R: Read>(&mut self, from: &mut R, asked: Asked) -> io::Result<()> {
        match asked {
            Asked::Turn(Form::Text) => {
                let mut sheet = [0u8; limits::SHEETS_BYTES + 1];
                self.answer_in(from, asked, &mut sheet)
            }
            Asked::Turn(Form::Bytes) | Asked::Check(_) => {
                let mut input = [0u8; limits::TEXT_BYTES + 1];
                self.answer_in(from, asked, &mut input)
            }
        }
    }

    // The same, with space for as much of the input as is read.
    fn answer_in<R: Read>(
        &mut self,
        from: &mut R,
        asked: Asked,
        space: &mut [u8],
    ) -> io::Result<()> {
        let n = full::read_full(from, space)?;
        match asked {
            Asked::Turn(form) => self.turn(form, &space[..n]),
            Asked::Check(check) => self.check(check, &space[..n]),
        }
    }

    // The sheet in the form that is asked for, or what is wrong. Six bytes of text are enough for a word.
    fn turn(&mut self, form: Form, input: &[u8]) -> io::Result<()> {
        let mut written = [0u8; write::WORD_BYTES * limits::SHEETS_WORDS];
        let turned = match form {
            Form::Bytes => turn::bytes_of_text(input, &mut written),
            Form::Text => turn::text_of_bytes(input, &mut written),
        };
        match turned {
            Ok(count) => say::text(self.out, &written[..count]),
            Err(error) => writeln!(self.err, "{error}"),
        }
    }

    // The line of a sheet that is checked, and a refusal in words, which name no sheet, since there is one only.
    fn check(&mut self, check: Check, input: &[u8]) -> io::Result<()> {
        let told = answer::told_for(check, input);
        say::line(self.out, told.line)?;
        match told.answer {
            Ok(()) => Ok(()),
            Err(NotAccepted::Refused(refused)) => {
                let refused = OfOneSheet(refused);
                writeln!(self.out, "refused: {refused}")
            }
            Err(NotAccepted::Text(error)) => writeln!(self.err, "{error}"),
        }
    }
}
