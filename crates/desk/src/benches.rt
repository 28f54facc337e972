ghost use Rattle.std.specs.Prelude.{◌≡◌, ℕ, [], length, replicate, None, ◌≢◌};
ghost use Rattle.store.specs.Meaning.{Out};
ghost use Rattle.store.specs.Cells.{at, meaning};
ghost use Rattle.store.specs.Plain.{Plain};
ghost use Rattle.store.specs.Rooted.{root_at, named};
ghost use Rattle.store.specs.View.{heap};
ghost use Rattle.bench.specs.Machine.{Machine, Shaped, start};
ghost use Rattle.bench.specs.Standing.{Stands};
ghost use Rattle.bench.specs.Bench.{Answers, Effect};
ghost use Rattle.bench.specs.Lists.{Placed};
ghost use Rattle.desk.specs.Ours.{ours, OurLaw, Lawful};

use bench::bench::Bench;
use bench::call::{Answer, Call};
use bench::fault::{BenchFault, NoPlace};
use store::cell::Cell;
use store::lowering::{AtOnce, Later, Lowering};
use store::stores::Counting;

// A bench over one of our two stores. What its calls ask is in the type: the table is in order and its cells are tidy,
// so that in the eager store a cell of count 0 is wiped, and the holds out on a cell are the roots that name it.
#[derive(Drop)]
pub struct OurBench<'t, L: Lowering> {
    bench: Bench<Counting<'t, L>>,
    ghost plain: { Plain (heap bench.store.table) },
    ghost tidy: { (c : ℕ) → L.Lowering.tidy (at bench.store.table.cells.now c) ≡ at bench.store.table.cells.now c },
    ghost out: { Out (meaning bench.store.table.cells.now) (named bench.roots.slots) },
}

pub type DeferringBench<'t> = OurBench<'t, Later>;

pub type EagerBench<'t> = OurBench<'t, AtOnce>;

impl<'t, L: Lowering> OurBench<'t, L> {
    // A bench over a store with no hold out, as it is at set-up: every root is empty.
    pub fn over(store: Counting<'t, L>) -> OurBench<'t, L>
        requires ok { L.Lowering.okay (heap store.table) }
        requires none { Out (meaning store.table.cells.now) [] }
        ensures table { heap result.bench.store.table ≡ heap store.entry.table }
        ensures empty { result.bench.roots.slots ≡ replicate 16 None }
        ensures start { Stands start result.bench.roots.slots (meaning result.bench.store.table.cells.now) }
    {
        OurBench {
            bench: Bench::over(store),
        }
    }

    // Answers one call. A call that fails a test changes nothing.
    pub fn send(&mut self, call: &Call) -> Result<Answer, BenchFault>
        ensures told { Answers self.old.bench.roots.slots (meaning self.old.bench.store.table.cells.now) call.now result self.new.bench.roots.slots (meaning self.new.bench.store.table.cells.now) }
        ensures effect { Effect self.old.bench.roots.slots call.now result self.new.bench.roots.slots (heap self.new.bench.store.table ≡ heap self.old.bench.store.table) (λ q. L.Lowering.did (heap self.old.bench.store.table) q (heap self.new.bench.store.table)) }
        ensures law { OurLaw L.Lowering.shows self.old.bench self.new.bench }
    {
        self.bench.send(call)
    }

    // Answers a list of calls in order; refused where the answers have not as many places as there are calls.
    pub fn send_all(
        &mut self,
        calls: &[Call],
        answers: &mut [Result<Answer, BenchFault>],
    ) -> Result<(), NoPlace>
        ensures served { Placed ((t : Machine) → Stands t self.old.bench.roots.slots (meaning self.old.bench.store.table.cells.now) → Shaped t → Lawful (ours L.Lowering.okay L.Lowering.did) (OurLaw L.Lowering.shows) (length self.old.bench.store.table.cells.now) t calls.now answers.new self.old.bench self.new.bench) ((length answers.old ≢ length calls.now) × (self.new.bench ≡ self.old.bench) × (answers.new ≡ answers.old)) result }
    {
        self.bench.send_all(calls, answers)
    }

    // The cell that a root names.
    pub fn root(&self, r: u8) -> Option<u16>
        ensures { result ≡ root_at self.now.bench.roots.slots r }
    {
        self.bench.root(r)
    }

    // The table as it stands.
    pub fn cells(&self) -> &[Cell]
        ensures { result.now ≡ self.now.bench.store.table.cells.now }
    {
        self.bench.store().cells()
    }
}
