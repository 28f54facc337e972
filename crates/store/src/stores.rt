ghost use Rattle.std.specs.Prelude.{◌≡◌, [], length, Ok, Err, refl};
ghost use Rattle.store.specs.declared.fault.SetupFault.TheVariants.{TableSize};
ghost use Rattle.store.specs.Meaning.{Out};
ghost use Rattle.store.specs.Cells.{meaning};
ghost use Rattle.store.specs.Setup.{Sized, fresh};
ghost use Rattle.store.specs.View.{heap};

use crate::cell::Cell;
use crate::content::Content;
use crate::fault::{BadTable, Refused, RefusedRebuild};
use crate::hold::{Hold, Links};
use crate::interface::Store;
use crate::lowering::{AtOnce, Later, Lowering};
use crate::table::Table;
use std::marker::PhantomData;

// A store on a table of counted cells. How it lowers a cell is the one thing in which our two stores differ.
#[derive(Drop)]
pub struct Counting<'t, L: Lowering> {
    table: Table<'t>,
    way: PhantomData<L>,
}

// The store that defers: a cell whose count falls to 0 is listed with its links untouched, and they are lowered
// when the cell is taken again. No call changes more than four cells.
pub type Deferring<'t> = Counting<'t, Later>;

// The store that reclaims at once: a cell whose count falls to 0 is wiped before the call goes on, and so are the
// cells that it alone led to. A cell of count 0 is wiped.
pub type Eager<'t> = Counting<'t, AtOnce>;

impl<'t, L: Lowering> Counting<'t, L> {
    // Sets a store up on a lent table of 1 to 4,096 cells: all wiped and listed from 0 upwards, and no hold out.
    pub fn set_up(cells: &'t mut [Cell]) -> Result<Counting<'t, L>, BadTable<'t>>
        ensures { elim result [ Ok s ↦ Sized cells.old × (heap s.table ≡ fresh (length cells.old)) × L.Lowering.okay (heap s.table) × Out (meaning s.table.cells.now) [] | Err e ↦ (Sized cells.old → ⊥) × (e.cells.now ≡ cells.old) × (e.fault ≡ TableSize) ] }
    {
        Ok(Counting {
            table: Table::fresh(cells)?,
            way: PhantomData,
        })
    }

    // The table as it stands.
    pub fn cells(&self) -> &[Cell]
        ensures { result.now ≡ self.now.table.cells.now }
    {
        self.table.cells
    }
}

impl<L: Lowering> Store for Counting<'_, L> {
    ghost ok = { λ s. L.Lowering.okay (heap s.table) };

    ghost means = { λ s. meaning s.table.cells.now };

    ghost kept = { λ s t. heap t.table ≡ heap s.table };

    ghost rests = { λ s. refl };

    ghost did = { λ s q t. L.Lowering.did (heap s.table) q (heap t.table) };

    fn kind(&self, c: u16) -> u8 {
        self.table.cell(c).kind
    }

    fn value(&self, c: u16) -> i32 {
        self.table.cell(c).value
    }

    fn link(&self, c: u16, k: u8) -> Option<u16> {
        self.table.link(c, k)
    }

    fn same(&self, a: &Hold, b: &Hold) -> bool {
        a.cell == b.cell
    }

    fn make(&mut self, content: Content) -> Result<Hold, Refused> {
        self.table.make::<L>(content)
    }

    fn copy(&mut self, h: &Hold) -> Hold {
        self.table.raise(h.cell);
        Hold { cell: h.cell }
    }

    fn release(&mut self, h: Hold) {
        let Hold { cell } = h;
        L::lower(&mut self.table, cell);
    }

    fn part(&mut self, h: Hold) -> Links {
        self.table.part::<L>(h)
    }

    fn rebuild(&mut self, old: Hold, content: Content) -> Result<Hold, RefusedRebuild> {
        self.table.rebuild::<L>(old, content)
    }
}
