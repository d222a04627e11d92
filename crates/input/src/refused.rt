// Why a program refuses its input: the bytes are no sheets, or a question says no; its numbers, and the same in a rigger's words.
ghost use Rattle.std.specs.Prelude.{◌≡◌};
ghost use Rattle.input.specs.Refusals.{number_of, sheet_of};
ghost use Rattle.input.specs.declared.refused.Refused.TheVariants.{Bytes, Question};

use crate::cut::Unreadable;
use sheets::refusal::{CallQuestion, MachineQuestion, Refusal, RuleQuestion, Side};
use std::fmt;

// The bytes, which are odd in number or too many, or a question of the call that the program makes.
#[derive(Clone, Copy, Debug, PartialEq, Eq)]
pub enum Refused {
    Bytes,
    Question(Refusal),
}

impl Refused {
    // The question's number, 0 for the bytes: the printed line `refused Q S` has the number, and 0 for bytes that are no sheets.
    pub fn number(self) -> u16
        ensures { result ≡ number_of self }
    {
        match self {
            Refused::Bytes => 0,
            Refused::Question(refusal) => refusal.number(),
        }
    }

    // The number of the machine sheet that it is put to, 0 where it is put to none: the printed line has that number too.
    pub fn sheet(self) -> u16
        ensures { result ≡ sheet_of self }
    {
        match self {
            Refused::Bytes => 0,
            Refused::Question(refusal) => refusal.sheet(),
        }
    }
}

impl From<Refusal> for Refused {
    ghost from_gives = { λ question refused. refused ≡ Question question };

    fn from(question: Refusal) -> Refused {
        Refused::Question(question)
    }
}

impl From<Unreadable> for Refused {
    ghost from_gives = { λ unreadable refused. refused ≡ Bytes };

    fn from(_: Unreadable) -> Refused {
        Refused::Bytes
    }
}

// The question with the machine sheet that it is put to, and what is wrong; of the bytes, what is wrong.
impl fmt::Display for Refused {
    fn fmt<W: fmt::Write>(&self, f: &mut fmt::Formatter<W>) -> fmt::Result {
        say(f, *self, sheet(*self))
    }
}

// A refusal by a program that takes one sheet: it names no sheet.
#[derive(Clone, Copy, Debug, PartialEq, Eq)]
pub struct OfOneSheet(pub Refused);

impl fmt::Display for OfOneSheet {
    fn fmt<W: fmt::Write>(&self, f: &mut fmt::Formatter<W>) -> fmt::Result {
        say(f, self.0, "")
    }
}

// What a refusal says, with the words for the sheet behind the question's number.
fn say<W: fmt::Write>(f: &mut fmt::Formatter<W>, refused: Refused, sheet: &str) -> fmt::Result {
    match refused {
        Refused::Bytes => f.write_str("an odd number of bytes, or too many"),
        Refused::Question(refusal) => {
            let number = refusal.number();
            let reason = reason(refusal);
            write!(f, "question {number}{sheet}: {reason}")
        }
    }
}

// Which machine sheet the question is put to.
fn sheet(refused: Refused) -> &'static str {
    match refused {
        Refused::Question(Refusal::Machine(Side::First, _)) => " of the first machine sheet",
        Refused::Question(Refusal::Machine(Side::Second, _)) => " of the second machine sheet",
        Refused::Question(Refusal::Rules(_) | Refusal::Call(_)) | Refused::Bytes => "",
    }
}

// What is wrong where a question says no.
fn reason(refusal: Refusal) -> &'static str {
    match refusal {
        Refusal::Machine(_, question) => machine_reason(question),
        Refusal::Rules(question) => rule_reason(question),
        Refusal::Call(question) => call_reason(question),
    }
}

fn machine_reason(question: MachineQuestion) -> &'static str {
    match question {
        MachineQuestion::Header => {
            "fewer than 3 words, or nodes not 1 to 128, signals not 1 to 16 or edges not 1 to 2048"
        }
        MachineQuestion::Length => "the number of words is not 3 + 3 x nodes + 2 x edges",
        MachineQuestion::Nodes => {
            "a node has a signal above the number of signals, or its start flag is neither 0 nor 1"
        }
        MachineQuestion::FirstEdges => "a node's first edge is no edge",
        MachineQuestion::Edges => {
            "an edge's target is no node, or its next edge is neither 0 nor an edge above its own number"
        }
        MachineQuestion::Starts => "there is no start node",
    }
}

fn rule_reason(question: RuleQuestion) -> &'static str {
    match question {
        RuleQuestion::Header => {
            "the rule sheet has fewer than 4 words, more than 16 automata, 256 states or 1024 edges, or lines not 1 to 1024"
        }
        RuleQuestion::Length => {
            "the number of words of the rule sheet is not 4 + 2 x automata + 3 x states + 3 x edges + 6 x lines"
        }
        RuleQuestion::Automata => {
            "an automaton has more than 4 variables, or its first state is no state"
        }
        RuleQuestion::States => {
            "a state's accepting word is not 0 or 1, its first edge is no edge, or its next state is neither 0 nor a state above its own"
        }
        RuleQuestion::Transitions => {
            "an edge's target is no state, or its next edge is neither 0 nor an edge above its own number"
        }
        RuleQuestion::Chains => {
            "an automaton has more than 16 states, a mask too large for its variables, or from one state a target not its own or twice"
        }
        RuleQuestion::Valuations => {
            "out of a state of an automaton two edges are taken under one valuation, or none is"
        }
        RuleQuestion::Cycles => {
            "a cycle of an automaton meets an accepting and a non-accepting state"
        }
        RuleQuestion::Lines => {
            "a line has an operation above 4, an unused word not 0, a signal not 1 to 16, no such automaton, or refers to no line above it"
        }
    }
}

fn call_reason(question: CallQuestion) -> &'static str {
    match question {
        CallQuestion::Signals => "a line has a signal above the machine's number of signals",
        CallQuestion::Rows => "too little space for the truth rows",
        CallQuestion::PathLine => {
            "the line is none of the rule sheet or no path line, or the node is none of the machine"
        }
        CallQuestion::PathSpace => "too little space for the path",
        CallQuestion::SameSignals => "the two machines have different numbers of signals",
        CallQuestion::Together => "the two machines have more than 128 nodes together",
        CallQuestion::RuleSpace => "too little space for the rule",
    }
}
