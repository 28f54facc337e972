ghost use Rattle.std.specs.Prelude.{[]};
ghost use Rattle.beam.specs.Carried.{Holding};

use crate::beam::Beam;
use crate::log::{Log, Stage};
use crate::shown::Shown;
use crate::steps::{hook, make_tag, set_down, turn};
use store::fault::StoreFault;
use store::interface::Store;

// One beam from the yard gate to its floor. Every hold is spent at the end, refused or not.
pub fn follow<S: Store + Shown>(store: &mut S, beam: &Beam, log: &mut Log) -> Result<(), StoreFault>
    requires { Holding S.Store store.old [] }
    ensures { Holding S.Store store.new [] }
{
    log.note(Stage::AtGate, None, store.table());
    let tag = make_tag(store, beam)?;
    log.note(Stage::Tagged, Some(tag.number()), store.table());
    let mut lift = hook(store, tag)?;
    log.note(Stage::Hooked, Some(lift.state.number()), store.table());
    'moves: for (axis, far) in beam.moves() {
        lift = turn(store, lift, axis.by(far))?;
        log.note(Stage::from(axis), Some(lift.state.number()), store.table());
    }
    set_down(store, lift);
    log.note(Stage::OnFloor, None, store.table());
    Ok(())
}
