//! How numbers, values, nodes, lists and the watch are shown.
use channel::fault::CallFault;
use channel::state::State;
use kinds::values::{Bound, Enclosed, Word};
use sheet::figures::SheetFault;
use std::fmt;
use wiring::graph::Node;

/// What has a form of its own in an answer.
pub trait Shown {
    /// Writes that form.
    fn show<W: fmt::Write>(&self, f: &mut fmt::Formatter<W>) -> fmt::Result;
}

// Four of a form, and no plainer as one: an impl for every T: Display conflicts with those of values and nodes below.
impl Shown for i32 {
    fn show<W: fmt::Write>(&self, f: &mut fmt::Formatter<W>) -> fmt::Result {
        write!(f, "{self}")
    }
}

impl Shown for u32 {
    fn show<W: fmt::Write>(&self, f: &mut fmt::Formatter<W>) -> fmt::Result {
        write!(f, "{self}")
    }
}

impl Shown for u64 {
    fn show<W: fmt::Write>(&self, f: &mut fmt::Formatter<W>) -> fmt::Result {
        write!(f, "{self}")
    }
}

impl Shown for usize {
    fn show<W: fmt::Write>(&self, f: &mut fmt::Formatter<W>) -> fmt::Result {
        write!(f, "{self}")
    }
}

impl Shown for Word {
    fn show<W: fmt::Write>(&self, f: &mut fmt::Formatter<W>) -> fmt::Result {
        let word = self.word;
        write!(f, "{word}")
    }
}

impl Shown for Enclosed {
    fn show<W: fmt::Write>(&self, f: &mut fmt::Formatter<W>) -> fmt::Result {
        let word = self.word;
        let low = self.low;
        let high = self.high;
        write!(f, "{word}:{low}:{high}")
    }
}

impl Shown for Bound {
    fn show<W: fmt::Write>(&self, f: &mut fmt::Formatter<W>) -> fmt::Result {
        let peak = self.peak;
        let ceiling = self.ceiling;
        write!(f, "{peak}:{ceiling}")
    }
}

impl Shown for Node {
    fn show<W: fmt::Write>(&self, f: &mut fmt::Formatter<W>) -> fmt::Result {
        match *self {
            Node::Input => f.write_str("i"),
            Node::Zero => f.write_str("z"),
            Node::Register(r) => write!(f, "r{r}"),
            Node::Scale { node, coefficient } => write!(f, "s{node}.{coefficient}"),
            Node::Sum(p, q) => write!(f, "a{p}.{q}"),
            Node::Difference(p, q) => write!(f, "d{p}.{q}"),
        }
    }
}

/// One item.
#[derive(Drop)]
pub struct One<'a, T>(pub &'a T);

impl<T: Shown> fmt::Display for One<'_, T> {
    fn fmt<W: fmt::Write>(&self, f: &mut fmt::Formatter<W>) -> fmt::Result {
        self.0.show(f)
    }
}

/// A list, with a comma between two items, or a dash where there is none.
#[derive(Drop)]
pub struct List<'a, T>(pub &'a [T]);

impl<T: Shown> fmt::Display for List<'_, T> {
    fn fmt<W: fmt::Write>(&self, f: &mut fmt::Formatter<W>) -> fmt::Result {
        if self.0.is_empty() {
            return f.write_str("-");
        }
        for (i, item) in self.0.iter().enumerate() {
            if i > 0 {
                f.write_str(",")?;
            }
            item.show(f)?;
        }
        Ok(())
    }
}

/// The number of a refusal, with the node or the record that it names, or a dash where it names none.
#[derive(Drop)]
pub struct Refused {
    pub number: u32,
    pub place: Option<usize>,
}

// Twice the same match, of two enums that have this case alone in common.
impl From<CallFault> for Refused {
    fn from(fault: CallFault) -> Refused {
        let place = match fault {
            CallFault::Node(node, _) => Some(node),
            _ => None,
        };
        Refused {
            number: fault.number(),
            place,
        }
    }
}

impl From<SheetFault> for Refused {
    fn from(fault: SheetFault) -> Refused {
        let place = match fault {
            SheetFault::Node(node, _) => Some(node),
            _ => None,
        };
        Refused {
            number: fault.number(),
            place,
        }
    }
}

impl fmt::Display for Refused {
    fn fmt<W: fmt::Write>(&self, f: &mut fmt::Formatter<W>) -> fmt::Result {
        let number = self.number;
        match self.place {
            Some(place) => write!(f, "refused {number} {place}"),
            None => write!(f, "refused {number} -"),
        }
    }
}

/// What the watch says, where there is one. Apart from the console's: a space would end the field here, so a dot stands before the count.
#[derive(Drop)]
pub struct Watching(pub Option<State>);

impl fmt::Display for Watching {
    fn fmt<W: fmt::Write>(&self, f: &mut fmt::Formatter<W>) -> fmt::Result {
        match self.0 {
            None => f.write_str("none"),
            Some(State::Settled) => f.write_str("settled"),
            Some(State::Sounding) => f.write_str("sounding"),
            Some(State::Falling(n)) => write!(f, "falling.{n}"),
            Some(State::Spoilt) => f.write_str("spoilt"),
            Some(State::Lapsed) => f.write_str("lapsed"),
        }
    }
}
