// The path program: a machine sheet and a rule sheet from standard input, a line and a node as arguments; a path that shows the line
// true at the node, to standard output.
#![tactic(auto)]

mod answer; // answer.rt: what is answered to the input
mod arguments; // arguments.rt: what the arguments ask for
mod print; // print.rt: what is printed

ghost use Rattle.path.specs.inner.AnsweredPairs.{AnsweredPairs};

use arguments::Asked;
use input::refused::Refused;
use input::{args, full, limits};
use std::io;
use std::io::{Read, Write};
use truth::pairs::Pair;
use truth::path::Shown;
use truth::sizes;

fn usage<W: Write>(err: &mut W) -> io::Result<()> {
    writeln!(
        err,
        "usage: path LINE NODE, two numbers; line 0 is the last; a machine sheet and then a rule sheet on standard input"
    )
}

// Reads one byte more than is taken, so that a longer input is noticed.
fn show<R: Read, W: Write>(from: &mut R, out: &mut W, asked: Asked) -> io::Result<()> {
    let mut input = [0u8; limits::SHEETS_BYTES + 1];
    let n = full::read_full(from, &mut input)?;
    let mut list = [Pair { node: 0, state: 0 }; sizes::PAIRS];
    let answer = answer::answer_to(&input[..n], asked, &mut list);
    tell(out, answer, asked, &list)
}

// Prints an answer, whose pairs lie in the list.
fn tell<W: Write>(
    out: &mut W,
    answer: Result<Option<Shown>, Refused>,
    asked: Asked,
    list: &[Pair],
) -> io::Result<()>
    requires { AnsweredPairs list.now answer }
{
    match answer {
        Ok(None) => print::no_path(out, asked.node),
        Ok(Some(shown)) => {
            print::pairs(out, &list[..shown.length as usize])?;
            print::back_to(out, shown.back)
        }
        Err(refused) => writeln!(out, "refused: {refused}"),
    }
}

// An argument that is missing or longer than 16 bytes is taken for an empty one.
fn main(rt: HostRuntime) -> io::Result<()> {
    let mut first_space = [0u8; 16];
    let mut second_space = [0u8; 16];
    let first = args::arg(&rt, 1, &mut first_space).unwrap_or(b"");
    let second = args::arg(&rt, 2, &mut second_space).unwrap_or(b"");
    match arguments::asked_for(args::arg_count(&rt), first, second) {
        Some(asked) => show(&mut rt.stdin(), &mut rt.stdout(), asked),
        None => usage(&mut rt.stderr()),
    }
}
