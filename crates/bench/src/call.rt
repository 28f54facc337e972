ghost use Rattle.std.specs.Prelude.{◌≡◌, map, Some};
ghost use Rattle.bench.specs.Tests.{fields, links_fit, touches, quad};

use crate::call::Touch::{Fill, Spend, Use};
use crate::tests::{fits_kind, link};
use std::fmt;

// What may be sent to a bench. Root and kind fields are bytes, and any byte may be sent. a and b are the roots for
// links 0 and 1; a call is refused unless they are 255 exactly where the kind lacks that link.
#[derive(Clone, Copy, PartialEq, Eq, Debug)]
pub enum Call {
    // spends a and b, and fills d with a new cell
    Make {
        d: u8,
        kind: u8,
        value: i32,
        a: u8,
        b: u8,
    },
    // fills d with what s names
    Copy {
        s: u8,
        d: u8,
    },
    // spends r
    Release {
        r: u8,
    },
    // spends r and fills a and b with its links, where its cell has the kind
    Match {
        r: u8,
        kind: u8,
        a: u8,
        b: u8,
    },
    // spends r, a and b, and fills r with a new cell
    Rebuild {
        r: u8,
        kind: u8,
        value: i32,
        a: u8,
        b: u8,
    },
    // asks what r names
    Look {
        r: u8,
    },
    // asks whether r and s name one cell
    Same {
        r: u8,
        s: u8,
    },
}

impl Call {
    // The root fields, from left to right.
    #[inline(always)]
    pub fn fields(&self) -> [Option<Field>; 4]
        ensures { result ≡ quad (map Some (fields self.now)) }
    {
        match *self {
            Call::Make { d: r, a, b, .. }
            | Call::Match { r, a, b, .. }
            | Call::Rebuild { r, a, b, .. } => {
                [
                    Some(Field::Root(r)),
                    Some(Field::Link(a)),
                    Some(Field::Link(b)),
                    None,
                ]
            }
            Call::Copy { s, d } => [Some(Field::Root(s)), Some(Field::Root(d)), None, None],
            Call::Release { r } | Call::Look { r } => [Some(Field::Root(r)), None, None, None],
            Call::Same { r, s } => [Some(Field::Root(r)), Some(Field::Root(s)), None, None],
        }
    }

    // Whether the roots for links fit the kind.
    #[inline(always)]
    pub fn links_fit(&self) -> bool
        ensures { result ≡ links_fit self.now }
    {
        match *self {
            Call::Make { kind, a, b, .. }
            | Call::Match { kind, a, b, .. }
            | Call::Rebuild { kind, a, b, .. } => fits_kind(kind, a, b),
            _ => true,
        }
    }

    // What it does to roots, in the order of spending and filling; a match as it does where its cell has the kind.
    #[inline(always)]
    pub fn touches(&self) -> [Option<Touch>; 4]
        ensures { result ≡ quad (touches self.now) }
    {
        match *self {
            Call::Make { d, a, b, .. } => {
                [link(a).map(Spend), link(b).map(Spend), Some(Fill(d)), None]
            }
            Call::Copy { s, d } => [Some(Use(s)), Some(Fill(d)), None, None],
            Call::Release { r } => [Some(Spend(r)), None, None, None],
            Call::Match { r, a, b, .. } => {
                [Some(Spend(r)), link(a).map(Fill), link(b).map(Fill), None]
            }
            Call::Rebuild { r, a, b, .. } => [
                Some(Spend(r)),
                link(a).map(Spend),
                link(b).map(Spend),
                Some(Fill(r)),
            ],
            Call::Look { r } => [Some(Use(r)), None, None, None],
            Call::Same { r, s } => [Some(Use(r)), Some(Use(s)), None, None],
        }
    }
}

#[derive(Clone, Copy, PartialEq, Eq, Debug)]
pub enum Answer {
    Done,
    Value(i32),
    OtherKind,
    Cell { kind: u8, value: i32 },
    Sameness(bool),
}

impl fmt::Display for Answer {
    fn fmt<W: fmt::Write>(&self, f: &mut fmt::Formatter<W>) -> fmt::Result {
        match self {
            Answer::Done => write!(f, "ok"),
            Answer::Value(value) => write!(f, "value {value}"),
            Answer::OtherKind => write!(f, "other kind"),
            Answer::Cell { kind, value } => write!(f, "kind {kind} value {value}"),
            Answer::Sameness(true) => write!(f, "yes"),
            Answer::Sameness(false) => write!(f, "no"),
        }
    }
}

// One root field of a call.
#[derive(Clone, Copy, PartialEq, Eq, Debug)]
pub enum Field {
    // must name a root
    Root(u8),
    // names a root, or is 255
    Link(u8),
}

// What a call does to one root.
#[derive(Clone, Copy, PartialEq, Eq, Debug)]
pub enum Touch {
    Use(u8),
    Spend(u8),
    Fill(u8),
}
