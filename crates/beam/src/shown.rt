use store::cell::Cell;
use store::lowering::Lowering;
use store::stores::Counting;

// A store whose table can be looked at.
pub trait Shown {
    fn table(&self) -> &[Cell];
}

impl<L: Lowering> Shown for Counting<'_, L> {
    fn table(&self) -> &[Cell] {
        self.cells()
    }
}
