ghost use Rattle.std.specs.Prelude.{◌≡◌, Some, None};
ghost use Rattle.store.specs.Interface.{on};

// One reference to a cell, in hand. It is linear: a hold is spent by release, make, part or rebuild, or set in a root.
// It cannot be let go, and none can be made from a number.
pub struct Hold {
    pub(crate) cell: u16,
}

impl Hold {
    // The number of the cell that it is on.
    pub fn number(&self) -> u16
        ensures { result ≡ self.now.cell }
    {
        self.cell
    }
}

// The hold that an optional number stands for, where a link or a root gives it up.
pub(crate) fn given_up(number: Option<u16>) -> Option<Hold>
    ensures { on result ≡ number }
{
    number.map(|cell| Hold { cell })
}

// A hold for each link that a cell has.
pub struct Links {
    pub first: Option<Hold>,
    pub second: Option<Hold>,
}

impl Links {
    pub fn none() -> Links
        ensures { result ≡ record { first = None; second = None } }
    {
        Links {
            first: None,
            second: None,
        }
    }

    pub fn one(first: Hold) -> Links
        ensures { result ≡ record { first = Some first; second = None } }
    {
        Links {
            first: Some(first),
            second: None,
        }
    }

    pub fn two(first: Hold, second: Hold) -> Links
        ensures { result ≡ record { first = Some first; second = Some second } }
    {
        Links {
            first: Some(first),
            second: Some(second),
        }
    }
}
