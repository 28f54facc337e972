ghost use Rattle.std.specs.Prelude.{◌≡◌, [], ◌∷◌, IfOk};
ghost use Rattle.store.specs.Interface.{spent};
ghost use Rattle.beam.specs.Carried.{Holding, Spending, Exchanged, given, Carried, Tagged, Lifted};

use crate::beam::{Beam, Kind, Move};
use store::content::Content;
use store::fault::{Refused, RefusedRebuild, StoreFault};
use store::hold::{Hold, Links};
use store::interface::Store;

// A beam on the hook: the record on its tag, where the hook is, and the state of the crane, which links to both.
pub struct Lift {
    pub tag: Hold,
    pub pose: Hold,
    pub state: Hold,
}

// Ends the holds of links.
fn release_links<S: Store>(store: &mut S, links: Links)
    requires { Spending S.Store store.old (spent links) }
    ensures { Exchanged S.Store store.old store.new (spent links) [] }
{
    let Links { first, second } = links;
    if let Some(hold) = first {
        store.release(hold);
    }
    if let Some(hold) = second {
        store.release(hold);
    }
}

// Makes a cell; where it is refused, the holds for its links are ended.
pub fn make<S: Store>(store: &mut S, content: Content) -> Result<Hold, StoreFault>
    requires { Spending S.Store store.old (spent content.links) }
    ensures { Exchanged S.Store store.old store.new (spent content.links) (given result) }
{
    match store.make(content) {
        Ok(h) => Ok(h),
        Err(Refused { links, fault }) => {
            release_links(store, links);
            Err(fault)
        }
    }
}

// Rebuilds a cell; where it is refused, the old hold and the holds for its links are ended.
pub fn rebuild<S: Store>(store: &mut S, old: Hold, content: Content) -> Result<Hold, StoreFault>
    requires { Spending S.Store store.old (old.cell ∷ spent content.links) }
    ensures told { Exchanged S.Store store.old store.new (old.cell ∷ spent content.links) (given result) }
    ensures written { IfOk result (λ h. ((S.Store.means store.new).content h.cell).links ≡ spent content.links) }
{
    match store.rebuild(old, content) {
        Ok(h) => Ok(h),
        Err(RefusedRebuild { old, links, fault }) => {
            store.release(old);
            release_links(store, links);
            Err(fault)
        }
    }
}

// The record on a beam's tag: its mark, its weight, and the floor that it goes to.
pub fn make_tag<S: Store>(store: &mut S, beam: &Beam) -> Result<Hold, StoreFault>
    requires { Holding S.Store store.old [] }
    ensures { Tagged S.Store store.new result }
{
    let mark = Content {
        kind: Kind::Mark as u8,
        value: beam.mark,
        links: Links::none(),
    };
    let marked = make(store, mark)?;
    let weight = Content {
        kind: Kind::Weight as u8,
        value: beam.weight,
        links: Links::one(marked),
    };
    let weighed = make(store, weight)?;
    let floor = Content {
        kind: Kind::Floor as u8,
        value: beam.floor,
        links: Links::one(weighed),
    };
    make(store, floor)
}

// The hook takes the beam: the tag's record is rebuilt as a state that links to it and to the pose.
pub fn hook<S: Store>(store: &mut S, tag: Hold) -> Result<Lift, StoreFault>
    requires { Holding S.Store store.old (tag.cell ∷ []) }
    ensures { Lifted S.Store store.new result }
{
    let first = Content {
        kind: Kind::Pose as u8,
        value: 0,
        links: Links::none(),
    };
    let pose = match make(store, first) {
        Ok(pose) => pose,
        Err(fault) => {
            store.release(tag);
            return Err(fault);
        }
    };
    let old = store.copy(&tag);
    state_over(store, tag, pose, old, 0)
}

// One axis moves: a new pose before the old one, and the state rebuilt with it. The tag's record is shared.
pub fn turn<S: Store>(store: &mut S, lift: Lift, by: Move) -> Result<Lift, StoreFault>
    requires { Carried S.Store store.old lift }
    ensures { Lifted S.Store store.new result }
{
    let Lift { tag, pose, state } = lift;
    let moved = Content {
        kind: by.kind,
        value: by.value,
        links: Links::one(pose),
    };
    match make(store, moved) {
        Ok(pose) => state_over(store, tag, pose, state, by.step),
        Err(fault) => {
            store.release(tag);
            store.release(state);
            Err(fault)
        }
    }
}

// Rebuilds `old` as a state over the tag and the pose, which stay held.
fn state_over<S: Store>(
    store: &mut S,
    tag: Hold,
    pose: Hold,
    old: Hold,
    step: i32,
) -> Result<Lift, StoreFault>
    requires { Holding S.Store store.old (tag.cell ∷ (pose.cell ∷ (old.cell ∷ []))) }
    ensures { Lifted S.Store store.new result }
{
    let t = store.copy(&tag);
    let p = store.copy(&pose);
    let content = Content {
        kind: Kind::State as u8,
        value: step,
        links: Links::two(t, p),
    };
    match rebuild(store, old, content) {
        Ok(state) => Ok(Lift { tag, pose, state }),
        Err(fault) => {
            store.release(tag);
            store.release(pose);
            Err(fault)
        }
    }
}

// The beam is on its floor: the state is taken apart, and every hold ends.
pub fn set_down<S: Store>(store: &mut S, lift: Lift)
    requires { Carried S.Store store.old lift }
    ensures { Holding S.Store store.new [] }
{
    let Lift { tag, pose, state } = lift;
    let links = store.part(state);
    release_links(store, links);
    store.release(pose);
    store.release(tag);
}
