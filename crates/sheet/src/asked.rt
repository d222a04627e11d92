// What the program's arguments ask for.
ghost use Rattle.std.specs.Prelude.{◌≡◌};
ghost use Rattle.sheet.specs.Arguments.{same, check_of, alone, asked_of};

use crate::answer::{Check, Form, Sort};

// A sheet turned into a form, from the other one, or a sheet checked.
#[derive(Clone, Copy, Debug, PartialEq, Eq)]
pub enum Asked {
    Turn(Form),
    Check(Check),
}

// Whether two words are the same. A name in the code is an array, which `==` does not compare with a slice.
fn same(word: &[u8], name: &[u8]) -> bool
    ensures { result ≡ same word.now name.now }
{
    word == name
}

// The check of a sheet in a form that a word names, if it names one.
fn check_of(form: Form, word: &[u8]) -> Option<Asked>
    ensures { result ≡ check_of form word.now }
{
    if same(word, b"machine") {
        Some(Asked::Check(Check {
            sort: Sort::Machine,
            form,
        }))
    } else if same(word, b"rules") {
        Some(Asked::Check(Check {
            sort: Sort::Rules,
            form,
        }))
    } else {
        None
    }
}

// What one word asks for.
fn alone(word: &[u8]) -> Option<Asked>
    ensures { result ≡ alone word.now }
{
    if same(word, b"bytes") {
        Some(Asked::Turn(Form::Bytes))
    } else if same(word, b"text") {
        Some(Asked::Turn(Form::Text))
    } else {
        check_of(Form::Bytes, word)
    }
}

// What the arguments ask for, if it is anything that there is: the number of the program's words, its own name among them, and the two
// after that.
pub fn asked_for(count: usize, first: &[u8], second: &[u8]) -> Option<Asked>
    ensures { result ≡ asked_of count first.now second.now }
{
    if count == 2 {
        return alone(first);
    }
    if count != 3 {
        return None;
    }
    if !same(second, b"text") {
        return None;
    }
    check_of(Form::Text, first)
}
