ghost use Rattle.std.specs.Prelude.{◌≡◌, ℕ, ◌<◌, ◌≤◌, length, Some};
ghost use Rattle.store.specs.Numbers.{times, In, opt};
ghost use Rattle.store.specs.Meaning.{Few, Spare, less};
ghost use Rattle.store.specs.Cells.{holds, links_of, meaning};
ghost use Rattle.store.specs.Heap.{cell, filled, lowered_all, raised_all, made_in, rewritten, rebuilt, parted};
ghost use Rattle.store.specs.Interface.{asked_for, spent, on};
ghost use Rattle.store.specs.Answers.{MakeAnswer, RebuildAnswer};
ghost use Rattle.store.specs.Sound.{Okay};
ghost use Rattle.store.specs.View.{heap};

use crate::cell::Cell;
use crate::content::Content;
use crate::fault::{Refused, RefusedRebuild, StoreFault};
use crate::hold::{Hold, Links, given_up};
use crate::lowering::Lowering;
use crate::table::Table;

// The calls on a table, however cells are lowered.
impl Table<'_> {
    #[inline(always)]
    pub(crate) fn make<L: Lowering>(&mut self, content: Content) -> Result<Hold, Refused>
        requires okay { Okay (heap self.old) }
        requires spare { Spare (meaning (heap self.old).cells) (spent content.links) }
        ensures table { heap self.new ≡ made_in L.Lowering.lowered (heap self.old) (asked_for content.kind content.value content.links) (heap self.old).free }
        ensures answer { MakeAnswer (heap self.old) content.links result }
    {
        match self.free {
            Some(c) => Ok(self.make_in::<L>(c, content)),
            None => Err(Refused {
                links: content.into_links(),
                fault: StoreFault::NoCell,
            }),
        }
    }

    // Takes the first free cell, lowers its remaining links, link 0 first, and writes it.
    #[inline(always)]
    fn make_in<L: Lowering>(&mut self, c: u16, content: Content) -> Hold
        requires okay { Okay (heap self.old) }
        requires first { (heap self.old).free ≡ Some c }
        requires spare { Spare (meaning (heap self.old).cells) (spent content.links) }
        ensures table { heap self.new ≡ made_in L.Lowering.lowered (heap self.old) (asked_for content.kind content.value content.links) (Some c) }
        ensures given { result.cell ≡ c }
    {
        let old = self.claim(c);
        self.refill::<L>(c, old, content);
        Hold { cell: c }
    }

    #[inline(always)]
    pub(crate) fn rebuild<L: Lowering>(
        &mut self,
        old: Hold,
        content: Content,
    ) -> Result<Hold, RefusedRebuild>
        requires okay { Okay (heap self.old) }
        requires held { 0 < holds (heap self.old).cells old.cell }
        requires spare { Spare (less (meaning (heap self.old).cells) old.cell) (spent content.links) }
        ensures table { heap self.new ≡ rebuilt L.Lowering.lowered (heap self.old) old.cell (asked_for content.kind content.value content.links) }
        ensures answer { RebuildAnswer (heap self.old) old content.links result }
    {
        if self.cell(old.cell).count == 1 {
            self.rewrite::<L>(old.cell, content);
            return Ok(old);
        }
        match self.free {
            Some(c) => {
                let made = self.make_in::<L>(c, content);
                let Hold { cell } = old;
                L::lower(self, cell);
                Ok(made)
            }
            None => Err(RefusedRebuild {
                old,
                links: content.into_links(),
                fault: StoreFault::NoCell,
            }),
        }
    }

    // Lowers the links of c, link 0 first, and writes the same cell.
    #[inline(always)]
    fn rewrite<L: Lowering>(&mut self, c: u16, content: Content)
        requires okay { Okay (heap self.old) }
        requires held { 0 < holds (heap self.old).cells c }
        ensures { heap self.new ≡ rewritten L.Lowering.lowered (heap self.old) c (asked_for content.kind content.value content.links) }
    {
        let old = self.strip(c);
        self.refill::<L>(c, old, content);
    }

    // Lowers the links that c had, and writes it.
    #[inline(always)]
    fn refill<L: Lowering>(&mut self, c: u16, old: Cell, content: Content)
        requires okay { Okay (heap self.old) }
        requires inside { c < length (heap self.old).cells }
        requires held { (d : ℕ) → times d (links_of old) ≤ holds (heap self.old).cells d }
        ensures { heap self.new ≡ filled (lowered_all L.Lowering.lowered (heap self.old) (links_of old)) c (asked_for content.kind content.value content.links) }
    {
        self.lower_links::<L>(old);
        self.fill(c, content);
    }

    #[inline(always)]
    pub(crate) fn part<L: Lowering>(&mut self, h: Hold) -> Links
        requires okay { Okay (heap self.old) }
        requires few { Few (meaning (heap self.old).cells) }
        requires held { 0 < holds (heap self.old).cells h.cell }
        ensures table { heap self.new ≡ parted L.Lowering.lowered (heap self.old) h.cell }
        ensures first { on result.first ≡ (cell (heap self.old) h.cell).link0 }
        ensures second { on result.second ≡ (cell (heap self.old) h.cell).link1 }
    {
        let Hold { cell: c } = h;
        let old = self.cell(c);
        if old.count == 1 {
            // its links are handed over
            self.strip(c);
        } else {
            self.raise_link(old.link0);
            self.raise_link(old.link1);
        }
        L::lower(self, c);
        Links {
            first: given_up(old.link0),
            second: given_up(old.link1),
        }
    }

    #[inline(always)]
    fn raise_link(&mut self, link: Option<u16>)
        requires inside { (d : ℕ) → In d (opt link) → d < length (heap self.old).cells }
        requires fits { (d : ℕ) → In d (opt link) → (cell (heap self.old) d).count < 65535 }
        ensures { heap self.new ≡ raised_all (heap self.old) (opt link) }
    {
        if let Some(c) = link {
            self.raise(c);
        }
    }

    #[inline(always)]
    fn lower_links<L: Lowering>(&mut self, old: Cell)
        requires okay { Okay (heap self.old) }
        requires held { (d : ℕ) → times d (links_of old) ≤ holds (heap self.old).cells d }
        ensures { heap self.new ≡ lowered_all L.Lowering.lowered (heap self.old) (links_of old) }
    {
        self.lower_link::<L>(old.link0);
        self.lower_link::<L>(old.link1);
    }

    #[inline(always)]
    fn lower_link<L: Lowering>(&mut self, link: Option<u16>)
        requires okay { Okay (heap self.old) }
        requires held { (d : ℕ) → times d (opt link) ≤ holds (heap self.old).cells d }
        ensures { heap self.new ≡ lowered_all L.Lowering.lowered (heap self.old) (opt link) }
    {
        if let Some(c) = link {
            L::lower(self, c);
        }
    }
}
