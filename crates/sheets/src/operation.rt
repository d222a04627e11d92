// The operations of a rule sheet's lines, and their numbers.
ghost use Rattle.std.specs.Prelude.{◌≡◌};
ghost use Rattle.sheets.specs.Operations.{some_path_operation, some_path_not_operation};
ghost use Rattle.sheets.specs.OperationNumbers.{number_of, Reads};
ghost use Rattle.sheets.specs.Words.{within};

// What a line says: a signal, "not" and "or" of lines above it, "on some path A" and "on some path not A".
#[derive(Clone, Copy, Debug, PartialEq, Eq)]
pub enum Operation {
    Signal = 0,
    Negation,
    Either,
    SomePath,
    SomePathNot,
}

impl Operation {
    // The number that a record has for it. A cast, since an enum has its numbers by no other name; so it is with the questions' numbers.
    pub fn number(self) -> u16
        ensures { result ≡ number_of self }
    {
        self as u16
    }

    // Whether the line is a path line.
    pub fn is_path(self) -> bool
        ensures { result ≡ within some_path_operation some_path_not_operation (number_of self) }
    {
        matches!(self, Operation::SomePath | Operation::SomePathNot)
    }
}

// A number that no operation has.
#[derive(Clone, Copy, Debug, PartialEq, Eq)]
pub struct NoOperation(pub u16);

impl TryFrom<u16> for Operation {
    type Error = NoOperation;

    ghost try_from_gives = { Reads };

    // The numbers stand here once more: an arm is a number, and one that took it from the enum would need a constant for each operation.
    fn try_from(number: u16) -> Result<Self, NoOperation> {
        match number {
            0 => Ok(Operation::Signal),
            1 => Ok(Operation::Negation),
            2 => Ok(Operation::Either),
            3 => Ok(Operation::SomePath),
            4 => Ok(Operation::SomePathNot),
            _ => Err(NoOperation(number)),
        }
    }
}
