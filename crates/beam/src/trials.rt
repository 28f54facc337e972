ghost use Rattle.std.specs.Prelude.{◌≡◌, [], None};
ghost use Rattle.beam.specs.Carried.{Holding};

use crate::shown::Shown;
use crate::steps::{make, rebuild};
use std::test::Fail;
use store::cell::Cell;
use store::content::Content;
use store::hold::Links;
use store::interface::Store;
use store::stores::{Deferring, Eager};
use store::tally::tally;

fn leaf_of(value: i32) -> Content
    ensures { result.links ≡ record { first = None; second = None } }
{
    Content {
        kind: 0,
        value,
        links: Links::none(),
    }
}

// A cell of kind 64 over a leaf whose copy is held; the upper one is released, and the leaf rebuilt.
// Answers the tally between the two, and whether the rebuild was accepted.
fn upper_released<S: Store + Shown>(store: &mut S) -> Option<(u128, bool)>
    requires { Holding S.Store store.old [] }
{
    let Ok(leaf) = make(store, leaf_of(5)) else {
        return None;
    };
    let kept = store.copy(&leaf);
    let over = Content {
        kind: 64,
        value: 6,
        links: Links::one(leaf),
    };
    let Ok(upper) = make(store, over) else {
        store.release(kept);
        return None;
    };
    store.release(upper);
    let sum = tally(store.table());
    match rebuild(store, kept, leaf_of(7)) {
        Ok(leaf) => {
            store.release(leaf);
            Some((sum, true))
        }
        Err(_) => Some((sum, false)),
    }
}

#[test]
fn the_deferring_store_still_counts_the_link(rt: HostRuntime) -> Result<(), Fail> {
    let mut table = [Cell::BLANK; 2];
    let Ok(mut store) = Deferring::set_up(&mut table) else {
        return Err(Fail::new("refused"));
    };
    assert_eq!(rt; upper_released(&mut store), Some((2, true)));
    Ok(())
}

#[test]
fn the_eager_store_has_wiped_it(rt: HostRuntime) -> Result<(), Fail> {
    let mut table = [Cell::BLANK; 2];
    let Ok(mut store) = Eager::set_up(&mut table) else {
        return Err(Fail::new("refused"));
    };
    assert_eq!(rt; upper_released(&mut store), Some((1, true)));
    Ok(())
}

// Whether a table of n cells, at most 4,097, is set up; and a refused one comes back as it went.
fn fits(n: usize) -> Option<bool> {
    let mark = Cell {
        kind: 9,
        value: 9,
        link0: None,
        link1: None,
        count: 9,
        next: None,
    };
    let mut table = [mark; 4097];
    match Deferring::set_up(table.get_mut(..n)?) {
        Ok(_) => Some(true),
        Err(back) => {
            let as_it_went = back.cells.len() == n && back.cells.iter().all(|cell| *cell == mark);
            as_it_went.then_some(false)
        }
    }
}

#[test]
fn tables_of_1_to_4096_cells(rt: HostRuntime) {
    assert_eq!(rt; fits(0), Some(false));
    assert_eq!(rt; fits(1), Some(true));
    assert_eq!(rt; fits(4096), Some(true));
    assert_eq!(rt; fits(4097), Some(false));
}
