//! The lines that tell of a channel and of its calls.
ghost use Rattle.std.specs.Prelude.{ℕ, List, Some};
ghost use Rattle.std.specs.Fmt.{DisplaysOnOk};
ghost use Rattle.console_text.specs.Lines.{word_fields, enclosed_fields, bound_fields, watch_field, node_field, answer_line, unread_line, limits_field, opened_line};

use channel::fault::CallFault;
use channel::state::{Limits, State};
use kinds::values::{Bound, Enclosed, Word};
use replay::log::{Entry, Told};
use std::fmt;

/// A value that is told by its fields, with tabs between them.
pub trait Shown {
    // The bytes of the fields.
    ghost fields: { Self → List ℕ };

    /// Writes the fields.
    fn fmt_fields<W: fmt::Write>(&self, f: &mut fmt::Formatter<W>) -> fmt::Result
        ensures { DisplaysOnOk W.write_str_gives f.old result (Some (fields self.now)) f.new };
}

impl Shown for Word {
    ghost fields = { word_fields };

    fn fmt_fields<W: fmt::Write>(&self, f: &mut fmt::Formatter<W>) -> fmt::Result {
        write!(f, "{}", self.word)
    }
}

impl Shown for Enclosed {
    ghost fields = { enclosed_fields };

    fn fmt_fields<W: fmt::Write>(&self, f: &mut fmt::Formatter<W>) -> fmt::Result {
        let Enclosed { word, low, high } = *self;
        write!(f, "{word}\t{low}\t{high}")
    }
}

impl Shown for Bound {
    ghost fields = { bound_fields };

    fn fmt_fields<W: fmt::Write>(&self, f: &mut fmt::Formatter<W>) -> fmt::Result {
        let Bound { peak, ceiling } = *self;
        write!(f, "{peak}\t{ceiling}")
    }
}

/// The fields of a value.
#[derive_where(Clone, Copy)]
pub(crate) struct Fields<'a, V>(pub &'a V);

impl<V: Shown> fmt::Display for Fields<'_, V> {
    ghost output = { λ x. Some (V.Shown.fields x.0.now) };

    fn fmt<W: fmt::Write>(&self, f: &mut fmt::Formatter<W>) -> fmt::Result {
        self.0.fmt_fields(f)
    }
}

// What the watch says, where there is one.
#[derive(Clone, Copy)]
struct Watched(Option<State>);

impl fmt::Display for Watched {
    ghost output = { λ x. Some (watch_field x.0) };

    fn fmt<W: fmt::Write>(&self, f: &mut fmt::Formatter<W>) -> fmt::Result {
        match self.0 {
            None => f.write_str("none"),
            Some(State::Settled) => f.write_str("settled"),
            Some(State::Sounding) => f.write_str("sounding"),
            Some(State::Falling(n)) => write!(f, "falling {n}"),
            Some(State::Spoilt) => f.write_str("spoilt"),
            Some(State::Lapsed) => f.write_str("lapsed"),
        }
    }
}

// The node that refused, or a dash where none did.
#[derive(Clone, Copy)]
struct AtNode(CallFault);

impl fmt::Display for AtNode {
    ghost output = { λ x. Some (node_field x.0) };

    fn fmt<W: fmt::Write>(&self, f: &mut fmt::Formatter<W>) -> fmt::Result {
        match self.0 {
            CallFault::Node(k, _) => write!(f, "{k}"),
            _ => f.write_str("-"),
        }
    }
}

/// The line of a call, by the log's entry of it: what it told, then what the watch says.
#[derive_where(Clone, Copy)]
pub(crate) struct Answer<'a, V>(pub(crate) &'a Entry<V>);

impl<V: Shown> fmt::Display for Answer<'_, V> {
    ghost output = { λ x. Some (answer_line V.Shown.fields x.0.now) };

    fn fmt<W: fmt::Write>(&self, f: &mut fmt::Formatter<W>) -> fmt::Result {
        let watch = Watched(self.0.watch);
        match &self.0.told {
            Told::Opened => write!(f, "opened\t{watch}"),
            Told::Fed { output, .. } => write!(f, "fed\t{}\t{watch}", Fields(output)),
            Told::Swapped => write!(f, "swapped\t{watch}"),
            Told::Hushed => write!(f, "hushed\t{watch}"),
            Told::Refused(fault) => {
                let number = fault.number();
                let node = AtNode(*fault);
                write!(f, "refused\t{number}\t{node}\t{watch}")
            }
        }
    }
}

/// The line of an input line of this number that asks for no call.
#[derive(Clone, Copy)]
pub(crate) struct Unread(pub(crate) usize);

impl fmt::Display for Unread {
    ghost output = { λ x. Some (unread_line x.0) };

    fn fmt<W: fmt::Write>(&self, f: &mut fmt::Formatter<W>) -> fmt::Result {
        write!(f, "unread\t{}", self.0)
    }
}

// The limits of the watch, where there is one.
#[derive(Clone, Copy)]
struct Limited(Option<Limits>);

impl fmt::Display for Limited {
    ghost output = { λ x. Some (limits_field x.0) };

    fn fmt<W: fmt::Write>(&self, f: &mut fmt::Formatter<W>) -> fmt::Result {
        match self.0 {
            Some(Limits { range, count }) => write!(f, "{range}\t{count}"),
            None => f.write_str("none"),
        }
    }
}

/// The first line: the kind, then the limits of the watch, where there is one.
#[derive(Clone, Copy)]
pub(crate) struct Opened<'a> {
    pub(crate) kind: &'a str,
    pub(crate) limits: Option<Limits>,
}

impl fmt::Display for Opened<'_> {
    ghost output = { λ x. Some (opened_line x.kind.now x.limits) };

    fn fmt<W: fmt::Write>(&self, f: &mut fmt::Formatter<W>) -> fmt::Result {
        let kind = self.kind;
        let limits = Limited(self.limits);
        write!(f, "opened\t{kind}\twatch\t{limits}")
    }
}
