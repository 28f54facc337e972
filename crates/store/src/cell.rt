ghost use Rattle.std.specs.Prelude.{◌≡◌};
ghost use Rattle.store.specs.Meaning.{arity};

// One cell of a table. Kinds 0–63 have no link, 64–127 link 0, 128–255 links 0 and 1.
#[derive(Clone, Copy, PartialEq, Eq, Debug)]
pub struct Cell {
    pub kind: u8,
    pub value: i32,
    pub link0: Option<u16>,
    pub link1: Option<u16>,
    // how many holds and links there are on this cell
    pub count: u16,
    // its successor in the free list, none while it is not listed
    pub next: Option<u16>,
}

impl Cell {
    // A wiped cell that is not listed: what a table is filled with before it is lent.
    pub const BLANK: Cell = Cell {
        kind: 0,
        value: 0,
        link0: None,
        link1: None,
        count: 0,
        next: None,
    };
}

// How many links a cell of the kind has.
pub fn links_of_kind(kind: u8) -> u8
    ensures { result ≡ arity kind }
{
    match kind {
        0..=63 => 0,
        64..=127 => 1,
        _ => 2,
    }
}
