ghost use Rattle.std.specs.Prelude.{◌≡◌};
ghost use Rattle.store.specs.Reports.{setup_report, store_report};

use crate::cell::Cell;
use crate::hold::{Hold, Links};
use std::error::Error;
use std::fmt;

// A refusal in four parts. Layers: 1 store, 2 bench, 3 rule. Root 255 and place 65,535 stand for none.
#[derive(Clone, Copy, PartialEq, Eq, Debug)]
pub struct Report {
    pub number: u8,
    pub layer: u8,
    pub root: u8,
    pub place: u16,
}

impl fmt::Display for Report {
    fn fmt<W: fmt::Write>(&self, f: &mut fmt::Formatter<W>) -> fmt::Result {
        let Report {
            number,
            layer,
            root,
            place,
        } = *self;
        write!(f, "fault {number} layer {layer} root {root} place {place}")
    }
}

// Why a table cannot be set up.
#[derive(Clone, Copy, PartialEq, Eq, Debug)]
pub enum SetupFault {
    // it has no cell, or more than 4,096
    TableSize,
}

impl From<SetupFault> for Report {
    ghost from_gives = { λ e r. r ≡ setup_report e };

    fn from(e: SetupFault) -> Report {
        match e {
            SetupFault::TableSize => Report {
                number: 1,
                layer: 2,
                root: 255,
                place: 65535,
            },
        }
    }
}

impl fmt::Display for SetupFault {
    fn fmt<W: fmt::Write>(&self, f: &mut fmt::Formatter<W>) -> fmt::Result {
        match self {
            SetupFault::TableSize => f.write_str("the table has no cell or too many"),
        }
    }
}

impl Error for SetupFault {}

// Why a store refuses a make or a rebuild.
#[derive(Clone, Copy, PartialEq, Eq, Debug)]
pub enum StoreFault {
    // want of a cell
    NoCell,
}

impl From<StoreFault> for Report {
    ghost from_gives = { λ e r. r ≡ store_report e };

    fn from(e: StoreFault) -> Report {
        match e {
            StoreFault::NoCell => Report {
                number: 22,
                layer: 1,
                root: 255,
                place: 65535,
            },
        }
    }
}

impl fmt::Display for StoreFault {
    fn fmt<W: fmt::Write>(&self, f: &mut fmt::Formatter<W>) -> fmt::Result {
        match self {
            StoreFault::NoCell => f.write_str("want of a cell"),
        }
    }
}

impl Error for StoreFault {}

// A table that was refused is handed back as it came.
#[derive(Drop)]
pub struct BadTable<'t> {
    pub cells: &'t mut [Cell],
    pub fault: SetupFault,
}

// What a refused make hands back.
pub struct Refused {
    pub links: Links,
    pub fault: StoreFault,
}

// What a refused rebuild hands back.
pub struct RefusedRebuild {
    pub old: Hold,
    pub links: Links,
    pub fault: StoreFault,
}
