ghost use Rattle.std.specs.Prelude.{◌≡◌, ℕ, ◌<◌, ◌≤◌, Some};
ghost use Rattle.store.specs.declared.cell.Cell.{Cell};
ghost use Rattle.store.specs.Meaning.{Asked};
ghost use Rattle.store.specs.Cells.{holds};
ghost use Rattle.store.specs.Numbers.{times, opt};
ghost use Rattle.store.specs.Heap.{Heap, deferred, settled, sunk_all, front_all, turned, turned_pile};
ghost use Rattle.store.specs.Sound.{Okay, Piling, Lawful, reclaimed};
ghost use Rattle.store.specs.Stores.{DeferringDid, EagerOkay, EagerDid, Keeping, Telling, few_changed, all_clean};
ghost use Rattle.store.specs.View.{heap};
ghost use Rattle.store.specs.Sinks.{defers};
ghost use Rattle.store.specs.Pile.{eagers};
ghost use Rattle.store.specs.Ways.{later_keeps, later_tells, at_once_keeps, at_once_tells};

use crate::cell::Cell;
use crate::table::Table;

// How a store lowers a cell, and so what it does with one whose count falls to 0.
pub trait Lowering {
    ghost lowered: { Heap → ℕ → Heap };

    // what the store keeps of its table between calls
    ghost okay: { Heap → Type 0 };

    // a cell as it stands between calls
    ghost tidy: { Cell → Cell };

    // what one change does to the table
    ghost did: { Heap → Asked → Heap → Type 0 };

    // what is seen of the table before and after a call, whether it changed the table or not
    ghost shows: { Heap → Heap → Type 0 };

    fn lower(table: &mut Table<'_>, c: u16)
        requires okay { Okay (heap table.old) }
        requires held { 0 < holds (heap table.old).cells c }
        ensures { heap table.new ≡ lowered (heap table.old) c };

    ghost lawful: { Lawful lowered };

    ghost keeps: { Keeping lowered okay tidy };

    ghost tells: { Telling lowered okay did shows };
}

// The cell is listed with its links untouched.
#[derive(Clone, Copy)]
pub struct Later;

impl Lowering for Later {
    ghost lowered = { deferred };

    ghost okay = { Okay };

    ghost tidy = { λ x. x };

    ghost did = { DeferringDid };

    ghost shows = { few_changed };

    ghost lawful = { defers };

    ghost keeps = { later_keeps };

    ghost tells = { later_tells };

    fn lower(table: &mut Table<'_>, c: u16) {
        table.free = table.sink(c, table.free);
    }
}

// The cell goes on a pile, which is emptied at once: the topmost is wiped and listed, and its links are lowered.
// The pile runs through the successors of the cells that wait.
#[derive(Clone, Copy)]
pub struct AtOnce;

impl Lowering for AtOnce {
    ghost lowered = { settled };

    ghost okay = { EagerOkay };

    ghost tidy = { reclaimed };

    ghost did = { EagerDid };

    ghost shows = { all_clean };

    ghost lawful = { eagers };

    ghost keeps = { at_once_keeps };

    ghost tells = { at_once_tells };

    fn lower(table: &mut Table<'_>, c: u16) {
        let mut pile = table.sink(c, None);
        'emptying: while let Some(top) = pile {
            pile = take_topmost(table, top);
        }
    }
}

// One turn of the pile. Answers the next topmost.
fn take_topmost(table: &mut Table<'_>, top: u16) -> Option<u16>
    requires { Piling (heap table.old) (Some top) }
    ensures table { heap table.new ≡ turned (heap table.old) top }
    ensures pile { result ≡ turned_pile (heap table.old) top }
{
    let old = table.shed(top);
    let pile = sink_link(table, old.link0, old.next);
    sink_link(table, old.link1, pile)
}

// Lowers the cell that a link leads to, onto the pile.
fn sink_link(table: &mut Table<'_>, link: Option<u16>, pile: Option<u16>) -> Option<u16>
    requires piling { Piling (heap table.old) pile }
    requires held { (d : ℕ) → times d (opt link) ≤ holds (heap table.old).cells d }
    ensures table { heap table.new ≡ sunk_all (heap table.old) pile (opt link) }
    ensures pile { result ≡ front_all (heap table.old) pile (opt link) }
{
    match link {
        Some(c) => table.sink(c, pile),
        None => pile,
    }
}
