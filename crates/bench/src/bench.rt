ghost use Rattle.std.specs.Prelude.{◌≡◌, [], length, replicate, None, Ok, Err, ◌≢◌};
ghost use Rattle.store.specs.Meaning.{Out};
ghost use Rattle.store.specs.Rooted.{root_at};
ghost use Rattle.bench.specs.declared.call.Answer.TheVariants.{Done};
ghost use Rattle.bench.specs.declared.call.Call.TheVariants.{Make, Copy, Release, Match, Rebuild, Look, Same};
ghost use Rattle.bench.specs.Machine.{Machine, Shaped, start};
ghost use Rattle.bench.specs.Standing.{Stands};
ghost use Rattle.bench.specs.Bench.{Stood, Answers, Effect, done_or, Ready, Sent};
ghost use Rattle.bench.specs.Lists.{Served};

use crate::call::{Answer, Call};
use crate::fault::{BenchFault, NoPlace, Wanting};
use crate::holds::{cell, fill, fill_links, take, take_content};
use crate::tests::test;
use store::fault::{Refused, RefusedRebuild};
use store::interface::Store;
use store::roots::Roots;

// Sixteen roots over a store.
#[derive(Drop)]
pub struct Bench<S: Store> {
    store: S,
    roots: Roots,
}

impl<S: Store> Bench<S> {
    // A bench over a store with no hold out: every root is empty.
    pub fn over(store: S) -> Bench<S>
        requires none { Out (S.Store.means store) [] }
        ensures store { result.store ≡ store }
        ensures empty { result.roots.slots ≡ replicate 16 None }
        ensures start { Stands start result.roots.slots (S.Store.means result.store) }
        ensures stood { Stood result.roots.slots (S.Store.means result.store) }
    {
        Bench {
            store,
            roots: Roots::new(),
        }
    }

    // The cell that a root names.
    pub fn root(&self, r: u8) -> Option<u16>
        ensures { result ≡ root_at self.now.roots.slots r }
    {
        self.roots.number(r)
    }

    // The store that it stands over.
    pub fn store(&self) -> &S
        ensures { result.now ≡ self.now.store }
    {
        &self.store
    }

    fn make_cell(&mut self, d: u8, kind: u8, value: i32, a: u8, b: u8) -> Result<(), Wanting>
        requires { Ready S.Store self.old (Make d kind value a b) }
        ensures { Sent S.Store self.old (Make d kind value a b) (done_or result) self.new }
    {
        let content = take_content(&mut self.roots, kind, value, a, b);
        match self.store.make(content) {
            Ok(hold) => {
                fill(&mut self.roots, d, hold);
                Ok(())
            }
            Err(Refused { links, fault }) => {
                fill_links(&mut self.roots, a, b, links);
                Err(Wanting { fault, root: d })
            }
        }
    }

    fn copy_root(&mut self, s: u8, d: u8)
        requires { Ready S.Store self.old (Copy s d) }
        ensures { Sent S.Store self.old (Copy s d) (Ok Done) self.new }
    {
        let hold = take(&mut self.roots, s);
        let copy = self.store.copy(&hold);
        fill(&mut self.roots, s, hold);
        fill(&mut self.roots, d, copy);
    }

    fn release_root(&mut self, r: u8)
        requires { Ready S.Store self.old (Release r) }
        ensures { Sent S.Store self.old (Release r) (Ok Done) self.new }
    {
        let hold = take(&mut self.roots, r);
        self.store.release(hold);
    }

    // A cell of the kind is parted into a and b.
    fn match_root(&mut self, r: u8, kind: u8, a: u8, b: u8) -> Answer
        requires { Ready S.Store self.old (Match r kind a b) }
        ensures { Sent S.Store self.old (Match r kind a b) (Ok result) self.new }
    {
        let c = cell(&self.roots, r);
        if self.store.kind(c) != kind {
            return Answer::OtherKind;
        }
        let value = self.store.value(c);
        let hold = take(&mut self.roots, r);
        let links = self.store.part(hold);
        fill_links(&mut self.roots, a, b, links);
        Answer::Value(value)
    }

    fn rebuild_cell(&mut self, r: u8, kind: u8, value: i32, a: u8, b: u8) -> Result<(), Wanting>
        requires { Ready S.Store self.old (Rebuild r kind value a b) }
        ensures { Sent S.Store self.old (Rebuild r kind value a b) (done_or result) self.new }
    {
        let old = take(&mut self.roots, r);
        let content = take_content(&mut self.roots, kind, value, a, b);
        match self.store.rebuild(old, content) {
            Ok(hold) => {
                fill(&mut self.roots, r, hold);
                Ok(())
            }
            Err(RefusedRebuild { old, links, fault }) => {
                fill_links(&mut self.roots, a, b, links);
                fill(&mut self.roots, r, old);
                Err(Wanting { fault, root: r })
            }
        }
    }

    fn look_root(&self, r: u8) -> Answer
        requires { Ready S.Store self.now (Look r) }
        ensures { Sent S.Store self.now (Look r) (Ok result) self.now }
    {
        let c = cell(&self.roots, r);
        Answer::Cell {
            kind: self.store.kind(c),
            value: self.store.value(c),
        }
    }

    fn same_roots(&self, r: u8, s: u8) -> Answer
        requires { Ready S.Store self.now (Same r s) }
        ensures { Sent S.Store self.now (Same r s) (Ok result) self.now }
    {
        Answer::Sameness(cell(&self.roots, r) == cell(&self.roots, s))
    }

    // Answers one call. A call that fails a test changes nothing.
    pub fn send(&mut self, call: &Call) -> Result<Answer, BenchFault>
        requires ok { S.Store.ok self.old.store }
        requires stood { Stood self.old.roots.slots (S.Store.means self.old.store) }
        ensures ok { S.Store.ok self.new.store }
        ensures stood { Stood self.new.roots.slots (S.Store.means self.new.store) }
        ensures told { Answers self.old.roots.slots (S.Store.means self.old.store) call.now result self.new.roots.slots (S.Store.means self.new.store) }
        ensures effect { Effect self.old.roots.slots call.now result self.new.roots.slots (S.Store.kept self.old.store self.new.store) (λ q. S.Store.did self.old.store q self.new.store) }
    {
        test(call, &self.roots.in_use())?;
        self.act(call)
    }

    // Answers a call whose tests are passed.
    fn act(&mut self, call: &Call) -> Result<Answer, BenchFault>
        requires { Ready S.Store self.old call.now }
        ensures { Sent S.Store self.old call.now result self.new }
    {
        match *call {
            Call::Make {
                d,
                kind,
                value,
                a,
                b,
            } => {
                self.make_cell(d, kind, value, a, b)?;
                Ok(Answer::Done)
            }
            Call::Copy { s, d } => {
                self.copy_root(s, d);
                Ok(Answer::Done)
            }
            Call::Release { r } => {
                self.release_root(r);
                Ok(Answer::Done)
            }
            Call::Match { r, kind, a, b } => Ok(self.match_root(r, kind, a, b)),
            Call::Rebuild {
                r,
                kind,
                value,
                a,
                b,
            } => {
                self.rebuild_cell(r, kind, value, a, b)?;
                Ok(Answer::Done)
            }
            Call::Look { r } => Ok(self.look_root(r)),
            Call::Same { r, s } => Ok(self.same_roots(r, s)),
        }
    }

    // Answers a list of calls in order; refused where the answers have not as many places as there are calls.
    pub fn send_all(
        &mut self,
        calls: &[Call],
        answers: &mut [Result<Answer, BenchFault>],
    ) -> Result<(), NoPlace>
        requires ok { S.Store.ok self.old.store }
        requires stood { Stood self.old.roots.slots (S.Store.means self.old.store) }
        ensures ok { S.Store.ok self.new.store }
        ensures stood { Stood self.new.roots.slots (S.Store.means self.new.store) }
        ensures served { elim result [ Ok _ ↦ ((t : Machine) → Stands t self.old.roots.slots (S.Store.means self.old.store) → Shaped t → Served S.Store (S.Store.means self.old.store).size t calls.now answers.new self.old self.new) | Err _ ↦ (length answers.old ≢ length calls.now) × (self.new ≡ self.old) × (answers.new ≡ answers.old) ] }
    {
        if answers.len() != calls.len() {
            return Err(NoPlace);
        }
        'each: for (i, call) in calls.iter().enumerate() {
            answers[i] = self.send(call);
        }
        Ok(())
    }
}
