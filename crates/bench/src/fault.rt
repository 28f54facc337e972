ghost use Rattle.std.specs.Prelude.{◌≡◌};
ghost use Rattle.bench.specs.Faults.{bench_report, field_told, touch_told};
ghost use Rattle.bench.specs.declared.fault.BenchFault.TheVariants.{Store};

use std::error::Error;
use std::fmt;
use store::fault::{Report, StoreFault};

// A refusal of the store, with the root that was to be filled.
#[derive(Clone, Copy, PartialEq, Eq, Debug)]
pub struct Wanting {
    pub fault: StoreFault,
    pub root: u8,
}

// There are not as many places for answers as calls.
#[derive(Clone, Copy)]
pub struct NoPlace;

// A root field that is not 0–15, nor 255 where that is allowed.
#[derive(Clone, Copy, PartialEq, Eq, Debug)]
pub struct NoSuchRoot(pub u8);

// Why a root is refused what is to be done to it.
#[derive(Clone, Copy, PartialEq, Eq, Debug)]
pub enum TouchFault {
    // it is empty when its turn to be used or spent comes
    Empty(u8),
    // it is in use when its turn to be filled comes
    InUse(u8),
}

// Why a bench refuses a call.
#[derive(Clone, Copy, PartialEq, Eq, Debug)]
pub enum BenchFault {
    // a root field is not 0–15, nor 255 where that is allowed
    NoSuchRoot(u8),
    // a or b is 255, or not 255, against the kind
    LinksUnfit,
    // a root is empty when its turn to be used or spent comes
    RootEmpty(u8),
    // a root is in use when its turn to be filled comes
    RootInUse(u8),
    // the store's refusal
    Store(Wanting),
}

impl From<BenchFault> for Report {
    ghost from_gives = { λ e r. r ≡ bench_report e };

    fn from(e: BenchFault) -> Report {
        match e {
            BenchFault::NoSuchRoot(root) => Report {
                number: 2,
                layer: 2,
                root,
                place: 65535,
            },
            BenchFault::LinksUnfit => Report {
                number: 3,
                layer: 2,
                root: 255,
                place: 65535,
            },
            BenchFault::RootEmpty(root) => Report {
                number: 20,
                layer: 2,
                root,
                place: 65535,
            },
            BenchFault::RootInUse(root) => Report {
                number: 21,
                layer: 2,
                root,
                place: 65535,
            },
            BenchFault::Store(w) => Report {
                root: w.root,
                ..Report::from(w.fault)
            },
        }
    }
}

impl fmt::Display for BenchFault {
    fn fmt<W: fmt::Write>(&self, f: &mut fmt::Formatter<W>) -> fmt::Result {
        Report::from(*self).fmt(f)
    }
}

impl Error for BenchFault {}

impl From<NoSuchRoot> for BenchFault {
    ghost from_gives = { λ e r. r ≡ field_told e };

    fn from(e: NoSuchRoot) -> BenchFault {
        BenchFault::NoSuchRoot(e.0)
    }
}

impl From<TouchFault> for BenchFault {
    ghost from_gives = { λ e r. r ≡ touch_told e };

    fn from(e: TouchFault) -> BenchFault {
        match e {
            TouchFault::Empty(r) => BenchFault::RootEmpty(r),
            TouchFault::InUse(r) => BenchFault::RootInUse(r),
        }
    }
}

impl From<Wanting> for BenchFault {
    ghost from_gives = { λ e r. r ≡ Store e };

    fn from(e: Wanting) -> BenchFault {
        BenchFault::Store(e)
    }
}
