ghost use Rattle.std.specs.Prelude.{◌≡◌, ℕ, map, length, set, replicate, is_some, None, Option, slice_set};
ghost use Rattle.store.specs.Interface.{on};
ghost use Rattle.store.specs.Rooted.{root_at, SetTold};

use crate::hold::{Hold, given_up};
use std::array;

// Sixteen roots, numbered 0–15. A root in use keeps the number of a cell in the place of the hold that was set in it,
// and the hold comes back when the root is emptied. It is no `Clone`, so none comes back twice.
#[derive(Drop)]
pub struct Roots {
    slots: [Option<u16>; 16],
    ghost sized: { length slots ≡ 16 },
}

impl Roots {
    // All empty.
    pub fn new() -> Roots
        ensures { result.slots ≡ replicate 16 None }
    {
        Roots { slots: [None; 16] }
    }

    // Sets a hold in an empty root; else hands it back.
    #[inline(always)]
    pub fn set(&mut self, r: u8, hold: Hold) -> Result<(), Hold>
        ensures { SetTold self.old.slots self.new.slots r hold result }
    {
        let i = usize::from(r);
        if i >= 16 {
            return Err(hold);
        }
        match self.slots[i] {
            Some(_) => Err(hold),
            None => {
                let Hold { cell } = hold;
                self.slots[i] = Some(cell);
                Ok(())
            }
        }
    }

    // Empties a root and gives its hold; none where it is empty or there is no such root.
    #[inline(always)]
    pub fn empty(&mut self, r: u8) -> Option<Hold>
        ensures given { on result ≡ root_at self.old.slots r }
        ensures emptied { self.new.slots ≡ slice_set self.old.slots r None }
    {
        let i = usize::from(r);
        if i >= 16 {
            return None;
        }
        given_up(self.slots[i].take())
    }

    // Which roots are in use.
    #[inline(always)]
    pub fn in_use(&self) -> [bool; 16]
        ensures { result ≡ map is_some self.now.slots }
    {
        array::from_fn(|r| self.slots[r].is_some())
    }

    // The number of the cell that a root names.
    #[inline(always)]
    pub fn number(&self, r: u8) -> Option<u16>
        ensures { result ≡ root_at self.now.slots r }
    {
        self.slots.get(usize::from(r)).copied().flatten()
    }
}
