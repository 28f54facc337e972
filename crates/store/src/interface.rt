ghost use Rattle.std.specs.Prelude.{◌≡◌, ℕ, ◌<◌, [], ◌∷◌, ◌==◌};
ghost use Rattle.store.specs.Numbers.{item};
ghost use Rattle.store.specs.Meaning.{Meaning, Reached, Moved, Few, Spare, less, Asked, making, copying, releasing, parting, rebuilding};
ghost use Rattle.store.specs.Interface.{asked_for, spent, Handed, MakeTold, RebuildTold};

use crate::content::Content;
use crate::fault::{Refused, RefusedRebuild};
use crate::hold::{Hold, Links};

// A store means two things: how many holds are out on each cell, and what each cell that is reached from a hold holds.
// It is asked only with holds that are out, about cells that are reached, and while at most 1,000 holds are out.
pub trait Store {
    // the store's own invariant
    ghost ok: { Self → Type 0 };

    ghost means: { Self → Meaning };

    // the store's own relation of no change
    ghost kept: { Self → Self → Type 0 };

    ghost rests: { (s : Self) → kept s s };

    // what one change does to the store's own table
    ghost did: { Self → Asked → Self → Type 0 };

    fn kind(&self, c: u16) -> u8
        requires ok { ok self.now }
        requires reached { Reached (means self.now) c }
        ensures { result ≡ ((means self.now).content c).kind };

    fn value(&self, c: u16) -> i32
        requires ok { ok self.now }
        requires reached { Reached (means self.now) c }
        ensures { result ≡ ((means self.now).content c).value };

    // The cell that link k leads to; none where the kind lacks that link.
    fn link(&self, c: u16, k: u8) -> Option<u16>
        requires ok { ok self.now }
        requires reached { Reached (means self.now) c }
        ensures { result ≡ item ((means self.now).content c).links k };

    // Whether two holds are on one cell.
    fn same(&self, a: &Hold, b: &Hold) -> bool
        requires ok { ok self.now }
        requires first { 0 < (means self.now).holds a.now.cell }
        requires second { 0 < (means self.now).holds b.now.cell }
        ensures { result ≡ (a.now.cell == b.now.cell) };

    // A cell that was not reached, with a hold on it; refused where every cell is reached.
    fn make(&mut self, content: Content) -> Result<Hold, Refused>
        requires ok { ok self.old }
        requires few { Few (means self.old) }
        requires spare { Spare (means self.old) (spent content.links) }
        ensures ok { ok self.new }
        ensures told { MakeTold (means self.old) (means self.new) content.kind content.value content.links (did self.old (making (asked_for content.kind content.value content.links)) self.new) (kept self.old self.new) result };

    fn copy(&mut self, h: &Hold) -> Hold
        requires ok { ok self.old }
        requires few { Few (means self.old) }
        requires held { 0 < (means self.old).holds h.now.cell }
        ensures ok { ok self.new }
        ensures same { result.cell ≡ h.now.cell }
        ensures told { Moved (means self.old) (means self.new) [] (h.now.cell ∷ []) }
        ensures did { did self.old (copying h.now.cell) self.new };

    fn release(&mut self, h: Hold)
        requires ok { ok self.old }
        requires few { Few (means self.old) }
        requires held { 0 < (means self.old).holds h.cell }
        ensures ok { ok self.new }
        ensures told { Moved (means self.old) (means self.new) (h.cell ∷ []) [] }
        ensures did { did self.old (releasing h.cell) self.new };

    // A hold for each link, in the order of the links.
    fn part(&mut self, h: Hold) -> Links
        requires ok { ok self.old }
        requires few { Few (means self.old) }
        requires held { 0 < (means self.old).holds h.cell }
        ensures ok { ok self.new }
        ensures handed { Handed result ((means self.old).content h.cell).links }
        ensures told { Moved (means self.old) (means self.new) (h.cell ∷ []) ((means self.old).content h.cell).links }
        ensures did { did self.old (parting h.cell) self.new };

    // A cell with the new content: one that was not reached, or only through the hold that is spent.
    fn rebuild(&mut self, old: Hold, content: Content) -> Result<Hold, RefusedRebuild>
        requires ok { ok self.old }
        requires few { Few (means self.old) }
        requires held { 0 < (means self.old).holds old.cell }
        requires spare { Spare (less (means self.old) old.cell) (spent content.links) }
        ensures ok { ok self.new }
        ensures told { RebuildTold (means self.old) (means self.new) old content.kind content.value content.links (did self.old (rebuilding old.cell (asked_for content.kind content.value content.links)) self.new) (kept self.old self.new) result };
}
