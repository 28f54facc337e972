// A field of a record that is tested.
#[derive(Clone, Copy, PartialEq, Eq, Debug)]
pub enum Mark {
    // must name a root
    Root(u8),
    // names a root, or is 255
    Link(u8),
    // must name a slot
    Slot(u8),
}
