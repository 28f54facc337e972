ghost use Rattle.std.specs.Prelude.{◌≡◌, ◌<◌, ◌≤◌, Ok, Err};

use crate::line::Make;
use store::fault::SetupFault;
use store::table::MOST_CELLS;

// A set-up that is accepted, and the lines from `start` on that it serves.
#[derive(Clone, Copy)]
pub struct Part {
    pub make: Make,
    pub cells: u16,
    pub start: usize,
    ghost some: { 0 < cells },
    ghost most: { cells ≤ 4096 },
}

impl Part {
    // The size is tested here, so that a refused set-up leaves the bench that stands.
    pub fn new(make: Make, cells: u16, start: usize) -> Result<Part, SetupFault>
        ensures { elim result [ Ok p ↦ (p.make ≡ make) × (p.cells ≡ cells) × (p.start ≡ start) | Err _ ↦ (0 < cells → cells ≤ 4096 → ⊥) ] }
    {
        if cells == 0 || usize::from(cells) > MOST_CELLS {
            return Err(SetupFault::TableSize);
        }
        Ok(Part { make, cells, start })
    }
}
