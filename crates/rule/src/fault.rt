ghost use Rattle.std.specs.Prelude.{◌≡◌};
ghost use Rattle.rule.specs.Check.{field_flawed, touch_flawed};
ghost use Rattle.rule.specs.Reports.{flaw_report, rule_report};
ghost use Rattle.rule.specs.declared.fault.RuleFault.TheVariants.{Flawed};

use bench::fault::{NoSuchRoot, TouchFault};
use std::error::Error;
use std::fmt;
use store::fault::Report;

// What is wrong with a record, in the order in which a record is tested.
#[derive(Clone, Copy, PartialEq, Eq, Debug)]
pub enum Flaw {
    // there are more than 1,024 records
    TooMany,
    // fewer than 4 bytes are left, or the length is under 4 or above what is left
    Cut,
    // no record of this kind can stand here
    Kind,
    // the length is not the kind's, or an arm has under 4 bytes
    Length,
    // bytes follow a closing record in its block
    Trailing,
    // a match or test inside 16 others
    TooDeep,
    // a root field is not 0–15, nor 255 where that is allowed
    NoSuchRoot(u8),
    // a slot above 7
    NoSuchSlot,
    // a or b is 255, or not 255, against the kind
    LinksUnfit,
    // a root that the rule does not own
    NotOwned(u8),
    // a root is empty on this path when its turn to be used or spent comes
    RootEmpty(u8),
    // a root is in use on this path when its turn to be filled comes
    RootInUse(u8),
    // at done this root is in use and should not be, or should be and is not
    NotAsDeclared(u8),
}

impl Flaw {
    pub fn at(self, place: u16) -> Spot
        ensures { result ≡ record { place = place; flaw = self } }
    {
        Spot { place, flaw: self }
    }
}

impl From<NoSuchRoot> for Flaw {
    ghost from_gives = { λ e r. r ≡ field_flawed e };

    fn from(e: NoSuchRoot) -> Flaw {
        Flaw::NoSuchRoot(e.0)
    }
}

impl From<TouchFault> for Flaw {
    ghost from_gives = { λ e r. r ≡ touch_flawed e };

    fn from(e: TouchFault) -> Flaw {
        match e {
            TouchFault::Empty(r) => Flaw::RootEmpty(r),
            TouchFault::InUse(r) => Flaw::RootInUse(r),
        }
    }
}

// A flaw, and the place in the rule where its record begins or should begin.
#[derive(Clone, Copy, PartialEq, Eq, Debug)]
pub struct Spot {
    pub place: u16,
    pub flaw: Flaw,
}

// Why a rule is refused.
#[derive(Clone, Copy, PartialEq, Eq, Debug)]
pub enum RuleFault {
    // it is longer than 4,096 bytes
    TooLong,
    Flawed(Spot),
}

impl From<Spot> for RuleFault {
    ghost from_gives = { λ e r. r ≡ Flawed e };

    fn from(e: Spot) -> RuleFault {
        RuleFault::Flawed(e)
    }
}

impl From<Spot> for Report {
    ghost from_gives = { λ e r. r ≡ flaw_report e.flaw e.place };

    fn from(e: Spot) -> Report {
        let (number, root) = match e.flaw {
            Flaw::TooMany => (5, 255),
            Flaw::Cut => (6, 255),
            Flaw::Kind => (7, 255),
            Flaw::Length => (8, 255),
            Flaw::Trailing => (9, 255),
            Flaw::TooDeep => (10, 255),
            Flaw::NoSuchRoot(r) => (2, r),
            Flaw::NoSuchSlot => (11, 255),
            Flaw::LinksUnfit => (3, 255),
            Flaw::NotOwned(r) => (12, r),
            Flaw::RootEmpty(r) => (13, r),
            Flaw::RootInUse(r) => (14, r),
            Flaw::NotAsDeclared(r) => (15, r),
        };
        Report {
            number,
            layer: 3,
            root,
            place: e.place,
        }
    }
}

impl From<RuleFault> for Report {
    ghost from_gives = { λ e r. r ≡ rule_report e };

    fn from(e: RuleFault) -> Report {
        match e {
            RuleFault::TooLong => Report {
                number: 4,
                layer: 3,
                root: 255,
                place: 0,
            },
            RuleFault::Flawed(spot) => Report::from(spot),
        }
    }
}

impl fmt::Display for RuleFault {
    fn fmt<W: fmt::Write>(&self, f: &mut fmt::Formatter<W>) -> fmt::Result {
        Report::from(*self).fmt(f)
    }
}

impl Error for RuleFault {}
