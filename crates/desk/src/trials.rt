use crate::benches::{DeferringBench, EagerBench};
use bench::call::{Answer, Call};
use bench::fault::BenchFault;
use std::test::Fail;
use store::cell::Cell;
use store::fault::Report;
use store::stores::{Deferring, Eager};
use store::tally::tally;

fn leaf(d: u8, value: i32) -> Call {
    Call::Make {
        d,
        kind: 0,
        value,
        a: 255,
        b: 255,
    }
}

// A cell of kind 64 over what root r names, in root r.
fn over(r: u8, value: i32) -> Call {
    Call::Make {
        d: r,
        kind: 64,
        value,
        a: r,
        b: 255,
    }
}

#[test]
fn a_refusal_names_the_first_root_at_fault(rt: HostRuntime) -> Result<(), Fail> {
    let mut table = [Cell::BLANK; 4];
    let Ok(store) = Deferring::set_up(&mut table) else {
        return Err(Fail::new("refused"));
    };
    let mut bench = DeferringBench::over(store);
    assert_eq!(rt;
        bench.send(&Call::Copy { s: 16, d: 17 }),
        Err(BenchFault::NoSuchRoot(16))
    );
    assert_eq!(rt;
        bench.send(&Call::Copy { s: 0, d: 0 }),
        Err(BenchFault::RootEmpty(0))
    );
    assert_eq!(rt; bench.send(&leaf(0, 5)), Ok(Answer::Done));
    assert_eq!(rt;
        bench.send(&Call::Copy { s: 0, d: 0 }),
        Err(BenchFault::RootInUse(0))
    );
    assert_eq!(rt; bench.send(&leaf(1, 6)), Ok(Answer::Done));
    let twice = Call::Make {
        d: 0,
        kind: 128,
        value: 7,
        a: 1,
        b: 1,
    };
    assert_eq!(rt; bench.send(&twice), Err(BenchFault::RootEmpty(1)));
    Ok(())
}

#[test]
fn a_match_may_fill_the_root_that_it_spends(rt: HostRuntime) -> Result<(), Fail> {
    let mut table = [Cell::BLANK; 2];
    let Ok(store) = Eager::set_up(&mut table) else {
        return Err(Fail::new("refused"));
    };
    let mut bench = EagerBench::over(store);
    assert_eq!(rt; bench.send(&leaf(0, 7)), Ok(Answer::Done));
    assert_eq!(rt; bench.send(&over(0, 8)), Ok(Answer::Done));
    let into_itself = Call::Match {
        r: 0,
        kind: 64,
        a: 0,
        b: 255,
    };
    assert_eq!(rt; bench.send(&into_itself), Ok(Answer::Value(8)));
    assert_eq!(rt;
        bench.send(&Call::Look { r: 0 }),
        Ok(Answer::Cell { kind: 0, value: 7 })
    );
    Ok(())
}

// A leaf whose copy is held, a cell of kind 64 over it, and the upper one released.
const UPPER_RELEASED: [Call; 4] = [
    Call::Make {
        d: 0,
        kind: 0,
        value: 5,
        a: 255,
        b: 255,
    },
    Call::Copy { s: 0, d: 1 },
    Call::Make {
        d: 0,
        kind: 64,
        value: 6,
        a: 0,
        b: 255,
    },
    Call::Release { r: 0 },
];

const LEAF_REBUILT: Call = Call::Rebuild {
    r: 1,
    kind: 0,
    value: 7,
    a: 255,
    b: 255,
};

#[test]
fn a_released_cell_still_counts_where_reclaiming_is_deferred(rt: HostRuntime) -> Result<(), Fail> {
    let mut one = [Cell::BLANK; 2];
    let mut two = [Cell::BLANK; 2];
    let Ok(deferring) = Deferring::set_up(&mut one) else {
        return Err(Fail::new("refused"));
    };
    let Ok(eager) = Eager::set_up(&mut two) else {
        return Err(Fail::new("refused"));
    };
    let mut deferring = DeferringBench::over(deferring);
    let mut eager = EagerBench::over(eager);
    for call in &UPPER_RELEASED {
        assert_eq!(rt; deferring.send(call), Ok(Answer::Done));
        assert_eq!(rt; eager.send(call), Ok(Answer::Done));
    }
    assert_eq!(rt; tally(deferring.cells()), 2);
    assert_eq!(rt; tally(eager.cells()), 1);
    assert_eq!(rt; deferring.send(&LEAF_REBUILT), Ok(Answer::Done));
    assert_eq!(rt; eager.send(&LEAF_REBUILT), Ok(Answer::Done));
    Ok(())
}

// Whether a table of n cells, at most 4,097, is set up; a refused one comes back as it went.
fn fits(n: usize) -> Option<bool> {
    let mark = Cell {
        kind: 9,
        value: 9,
        link0: None,
        link1: None,
        count: 9,
        next: None,
    };
    let mut table = [mark; 4097];
    match Deferring::set_up(table.get_mut(..n)?) {
        Ok(_) => Some(true),
        Err(back) => {
            let number = Report::from(back.fault).number;
            let as_it_went = back.cells.len() == n && back.cells.iter().all(|cell| *cell == mark);
            (as_it_went && number == 1).then_some(false)
        }
    }
}

#[test]
fn tables_of_1_to_4096_cells(rt: HostRuntime) {
    assert_eq!(rt; fits(0), Some(false));
    assert_eq!(rt; fits(1), Some(true));
    assert_eq!(rt; fits(4096), Some(true));
    assert_eq!(rt; fits(4097), Some(false));
}
