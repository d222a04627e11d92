// What is answered to the input.
ghost use Rattle.truth.specs.PathPairs.{PairsAnswer};
ghost use Rattle.path.specs.Program.{Answered};

use crate::arguments::Asked;
use input::refused::Refused;
use input::{limits, reply};
use truth::pairs;
use truth::pairs::Pair;
use truth::path::Shown;

// The answer to the bytes of standard input; the path's pairs go to the lent list. The closure holds what is asked, and its own clause says what it
// answers to two sheets.
pub fn answer_to(input: &[u8], asked: Asked, list: &mut [Pair]) -> Result<Option<Shown>, Refused>
    ensures { Answered input.now asked.line asked.node list.old list.new result }
{
    let mut words = [0u16; limits::SHEETS_WORDS];
    reply::reply_to(
        input,
        &mut words,
        list,
        |m: &[u16], r: &[u16], list: &mut [Pair]|
            ensures { PairsAnswer m.now r.now asked.line asked.node list.old list.new result }
        { pairs::path(m, r, asked.line, asked.node, list) },
    )
}
