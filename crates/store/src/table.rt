ghost use Rattle.std.specs.Prelude.{◌≡◌, ℕ, ◌+◌, ◌-◌, ◌<◌, ◌≤◌, [], ◌∷◌, length, Ok, Err};
ghost use Rattle.store.specs.declared.fault.SetupFault.TheVariants.{TableSize};
ghost use Rattle.store.specs.Numbers.{item};
ghost use Rattle.store.specs.Cells.{at, links_of};
ghost use Rattle.store.specs.Heap.{cell, raised, sunk, front, claimed, stripped, shed, filled};
ghost use Rattle.store.specs.Interface.{asked_for};
ghost use Rattle.store.specs.Sound.{Fitting};
ghost use Rattle.store.specs.Setup.{Sized, fresh, fresh_cell};
ghost use Rattle.store.specs.View.{heap};

use crate::cell::Cell;
use crate::content::Content;
use crate::fault::{BadTable, SetupFault};
use crate::hold::{Hold, Links};
use std::mem;

// The most cells that a table may have.
pub const MOST_CELLS: usize = 4096;

// A lent table of counted cells and the free list that runs through them: what both stores stand on.
#[derive(Drop)]
pub struct Table<'t> {
    pub(crate) cells: &'t mut [Cell],
    pub(crate) free: Option<u16>,
}

impl<'t> Table<'t> {
    // Every cell wiped and listed, from 0 upwards. The size is tested before anything is touched.
    pub(crate) fn fresh(cells: &'t mut [Cell]) -> Result<Table<'t>, BadTable<'t>>
        ensures { elim result [ Ok t ↦ Sized cells.old × (heap t ≡ fresh (length cells.old)) | Err e ↦ (Sized cells.old → ⊥) × (e.cells.now ≡ cells.old) × (e.fault ≡ TableSize) ] }
    {
        if cells.len() == 0 || cells.len() > MOST_CELLS {
            return Err(BadTable {
                cells,
                fault: SetupFault::TableSize,
            });
        }
        list_all(cells);
        Ok(Table {
            cells,
            free: Some(0),
        })
    }
}

// Wipes every cell and makes the next one its successor.
fn list_all(cells: &mut [Cell])
    requires { length cells.old ≤ 4096 }
    ensures { cells.new ≡ (fresh (length cells.old)).cells }
{
    let n = cells.len();
    'each: for (i, cell) in cells.iter_mut().enumerate() {
        *cell = Cell {
            next: if i + 1 == n {
                None
            } else {
                Some((i + 1) as u16)
            },
            ..Cell::BLANK
        };
    }
}

impl Table<'_> {
    pub(crate) fn cell(&self, c: u16) -> Cell
        requires { c < length self.now.cells.now }
        ensures { result ≡ at self.now.cells.now c }
    {
        self.cells[usize::from(c)]
    }

    // The cell that link k of c leads to.
    pub(crate) fn link(&self, c: u16, k: u8) -> Option<u16>
        requires inside { c < length self.now.cells.now }
        requires shaped { Fitting (at self.now.cells.now c).kind (at self.now.cells.now c).link0 (at self.now.cells.now c).link1 }
        ensures { result ≡ item (links_of (at self.now.cells.now c)) k }
    {
        let cell = self.cells[usize::from(c)];
        match k {
            0 => cell.link0,
            1 => cell.link1,
            _ => None,
        }
    }

    pub(crate) fn raise(&mut self, c: u16)
        requires inside { c < length self.old.cells.now }
        requires fits { (at self.old.cells.now c).count < 65535 }
        ensures { heap self.new ≡ raised (heap self.old) c }
    {
        self.cells[usize::from(c)].count += 1;
    }

    // Takes one from the count of c; a cell whose count falls to 0 goes before the list that begins at head.
    // Answers where that list begins then.
    pub(crate) fn sink(&mut self, c: u16, head: Option<u16>) -> Option<u16>
        requires inside { c < length self.old.cells.now }
        requires counted { 0 < (at self.old.cells.now c).count }
        ensures table { heap self.new ≡ sunk (heap self.old) c head }
        ensures front { result ≡ front (heap self.old) c head }
    {
        let cell = &mut self.cells[usize::from(c)];
        cell.count -= 1;
        if cell.count == 0 {
            cell.next = head;
            Some(c)
        } else {
            head
        }
    }

    // Takes c off the front of the free list, with count 1 and no content. Answers what it held.
    pub(crate) fn claim(&mut self, c: u16) -> Cell
        requires { c < length self.old.cells.now }
        ensures table { heap self.new ≡ claimed (heap self.old) c }
        ensures old { result ≡ cell (heap self.old) c }
    {
        let old = mem::replace(
            &mut self.cells[usize::from(c)],
            Cell {
                count: 1,
                ..Cell::BLANK
            },
        );
        self.free = old.next;
        old
    }

    // Takes the content out of c, which keeps its count. Answers what it held.
    pub(crate) fn strip(&mut self, c: u16) -> Cell
        requires { c < length self.old.cells.now }
        ensures table { heap self.new ≡ stripped (heap self.old) c }
        ensures old { result ≡ cell (heap self.old) c }
    {
        let cell = &mut self.cells[usize::from(c)];
        let old = *cell;
        *cell = Cell {
            count: old.count,
            next: old.next,
            ..Cell::BLANK
        };
        old
    }

    // Wipes c and lists it. Answers what it held.
    pub(crate) fn shed(&mut self, c: u16) -> Cell
        requires { c < length self.old.cells.now }
        ensures table { heap self.new ≡ shed (heap self.old) c }
        ensures old { result ≡ cell (heap self.old) c }
    {
        let wiped = Cell {
            next: self.free.replace(c),
            ..Cell::BLANK
        };
        mem::replace(&mut self.cells[usize::from(c)], wiped)
    }

    // Writes a content into c, whose count stays; the holds become its links.
    pub(crate) fn fill(&mut self, c: u16, content: Content)
        requires { c < length self.old.cells.now }
        ensures { heap self.new ≡ filled (heap self.old) c (asked_for content.kind content.value content.links) }
    {
        let Content { kind, value, links } = content;
        let Links { first, second } = links;
        let cell = &mut self.cells[usize::from(c)];
        *cell = Cell {
            kind,
            value,
            link0: first.map(|Hold { cell }| cell),
            link1: second.map(|Hold { cell }| cell),
            ..*cell
        };
    }
}
