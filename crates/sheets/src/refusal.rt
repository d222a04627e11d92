// Why a call is refused: the question that says no, and for a machine sheet which of the call's sheets it is.
ghost use Rattle.std.specs.Prelude.{◌≡◌};
ghost use Rattle.sheets.specs.Refusals.{number_of, sheet_of};
ghost use Rattle.sheets.specs.declared.refusal.Side.TheVariants.{First};
ghost use Rattle.sheets.specs.declared.refusal.Refusal.TheVariants.{Machine, Rules};

// Questions 1 to 6, put to a machine sheet.
#[derive(Clone, Copy, Debug, PartialEq, Eq)]
pub enum MachineQuestion {
    Header = 1,
    Length,
    Nodes,
    FirstEdges,
    Edges,
    Starts,
}

// Questions 7 to 15, put to a rule sheet.
#[derive(Clone, Copy, Debug, PartialEq, Eq)]
pub enum RuleQuestion {
    Header = 7,
    Length,
    Automata,
    States,
    Transitions,
    Chains,
    Valuations,
    Cycles,
    Lines,
}

// Questions 16 to 22, put to sheets together and to what else a call is given.
#[derive(Clone, Copy, Debug, PartialEq, Eq)]
pub enum CallQuestion {
    Signals = 16,
    Rows,
    PathLine,
    PathSpace,
    SameSignals,
    Together,
    RuleSpace,
}

// Which machine sheet of a call: the only or first, or the second.
#[derive(Clone, Copy, Debug, PartialEq, Eq)]
pub enum Side {
    First = 1,
    Second,
}

// The question that says no.
#[derive(Clone, Copy, Debug, PartialEq, Eq)]
pub enum Refusal {
    Machine(Side, MachineQuestion),
    Rules(RuleQuestion),
    Call(CallQuestion),
}

impl Refusal {
    // The question's number.
    pub fn number(self) -> u16
        ensures { result ≡ number_of self }
    {
        match self {
            Refusal::Machine(_, question) => question as u16,
            Refusal::Rules(question) => question as u16,
            Refusal::Call(question) => question as u16,
        }
    }

    // The number of the machine sheet that it is put to, 0 where it is put to none: so the C interface hands it out.
    pub fn sheet(self) -> u16
        ensures { result ≡ sheet_of self }
    {
        match self {
            Refusal::Machine(side, _) => side as u16,
            Refusal::Rules(_) | Refusal::Call(_) => 0,
        }
    }
}

// A call that takes one machine sheet has no second.
impl From<MachineQuestion> for Refusal {
    ghost from_gives = { λ question refusal. refusal ≡ Machine First question };

    fn from(question: MachineQuestion) -> Refusal {
        Refusal::Machine(Side::First, question)
    }
}

impl From<RuleQuestion> for Refusal {
    ghost from_gives = { λ question refusal. refusal ≡ Rules question };

    fn from(question: RuleQuestion) -> Refusal {
        Refusal::Rules(question)
    }
}
