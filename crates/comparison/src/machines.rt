// The two machines that are compared, and what comes of each of them.
use truth::rows::Row;
use truth::structure::Machine;

// Something of the first machine, and the same of the second. Both lines are written out where two of these are read side by side, or
// where a proof names what each side is.
#[derive(Clone, Copy)]
pub struct Both<T> {
    pub first: T,
    pub second: T,
}

impl<T: Copy> Both<T> {
    // What f makes of each.
    pub fn map<U, F: Fn(T) -> U>(self, f: F) -> Both<U>
        requires first { F.pre f self.first }
        requires second { F.pre f self.second }
        ensures first { F.post f self.first result.first }
        ensures second { F.post f self.second result.second }
    {
        Both {
            first: f(self.first),
            second: f(self.second),
        }
    }
}

pub type Machines<'a> = Both<Machine<'a>>;

// A set of nodes of each machine.
pub type Sets = Both<Row>;
