#![tactic(auto)]

mod beam;
mod journey;
mod log;
mod shown;
mod steps;
#[cfg(test)]
mod trials;

ghost use Rattle.std.specs.Prelude.{[]};
ghost use Rattle.beam.specs.Carried.{Holding};

use beam::Beam;
use journey::follow;
use log::{CELLS, Log};
use shown::Shown;
use store::cell::Cell;
use store::interface::Store;
use store::lowering::{AtOnce, Later, Lowering};
use store::stores::Counting;

const BEAMS: [Beam; 2] = [
    Beam {
        mark: 4711,
        weight: 1850,
        floor: 7,
        trolley: 32,
        slew: 140,
        hoist: 24,
    },
    Beam {
        mark: 4712,
        weight: 920,
        floor: 8,
        trolley: 18,
        slew: -75,
        hoist: 27,
    },
];

fn main(rt: HostRuntime) -> anyhow::Result<()> {
    run(&rt)
}

// The same beams on one store and then on the other.
fn run(rt: &HostRuntime) -> anyhow::Result<()> {
    let mut table = [Cell::BLANK; CELLS];
    println!(rt; "Beams from the yard gate to their floors, on a table of {CELLS} cells.")?;
    println!(rt;
        "A row has the stage, the cell of the newest state, the count of each cell from 0 on,"
    )?;
    println!(rt; "and the tally. A dot is a wiped cell, o a listed one with its links untouched.")?;
    follow_all::<Later>(rt, "deferring", &mut table)?;
    follow_all::<AtOnce>(rt, "eager", &mut table)
}

fn follow_all<L: Lowering>(rt: &HostRuntime, name: &str, table: &mut [Cell]) -> anyhow::Result<()> {
    let mut store = match Counting::<L>::set_up(table) {
        Ok(store) => store,
        Err(bad) => return Err(bad.fault.into()),
    };
    println!(rt; "\nThe {name} store")?;
    carry(rt, &mut store)
}

// One beam after the other.
fn carry<S: Store + Shown>(rt: &HostRuntime, store: &mut S) -> anyhow::Result<()>
    requires { Holding S.Store store.old [] }
{
    'each: for beam in &BEAMS {
        println!(rt; "{beam}")?;
        let mut log = Log::new();
        follow(store, beam, &mut log)?;
        print!(rt; "{log}")?;
    }
    Ok(())
}
