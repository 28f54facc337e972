ghost use Rattle.std.specs.Prelude.{◌≡◌};
ghost use Rattle.store.specs.Interface.{Fits};

use crate::hold::Links;

// What a new cell is to hold: a kind, a value, and a hold for each link that the kind has. The holds become its links.
pub struct Content {
    pub kind: u8,
    pub value: i32,
    pub links: Links,
    ghost fits: { Fits kind links },
}

impl Content {
    // The holds, where no cell was made.
    pub fn into_links(self) -> Links
        ensures { result ≡ self.links }
    {
        let Content {
            kind: _,
            value: _,
            links,
        } = self;
        links
    }
}
