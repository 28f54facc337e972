ghost use Rattle.std.specs.Prelude.{◌≡◌};
ghost use Rattle.beam.specs.Kinds.{stage_of};

use crate::beam::Axis;
use std::{array, fmt};
use store::cell::Cell;
use store::tally::tally;

// How many cells the table of this program has.
pub const CELLS: usize = 12;

const STAGES: usize = 7;

// Where a beam is.
#[derive(Clone, Copy)]
pub enum Stage {
    AtGate,
    Tagged,
    Hooked,
    TrolleyMoved,
    Slewed,
    Hoisted,
    OnFloor,
}

// Once the axis has moved.
impl From<Axis> for Stage {
    ghost from_gives = { λ axis r. r ≡ stage_of axis };

    fn from(axis: Axis) -> Stage {
        match axis {
            Axis::Trolley => Stage::TrolleyMoved,
            Axis::Slew => Stage::Slewed,
            Axis::Hoist => Stage::Hoisted,
        }
    }
}

impl fmt::Display for Stage {
    fn fmt<W: fmt::Write>(&self, f: &mut fmt::Formatter<W>) -> fmt::Result {
        f.pad(match self {
            Stage::AtGate => "at the yard gate",
            Stage::Tagged => "tag read",
            Stage::Hooked => "on the hook",
            Stage::TrolleyMoved => "trolley moved",
            Stage::Slewed => "slewed",
            Stage::Hoisted => "hoisted",
            Stage::OnFloor => "on its floor",
        })
    }
}

// The table at one stage, and the cell of the newest state.
#[derive(Clone, Copy)]
struct Row {
    stage: Stage,
    cell: Option<u16>,
    cells: [Cell; CELLS],
}

// The count of a used cell; `o` is a listed cell that still has its links, a dot a wiped one.
impl fmt::Display for Row {
    fn fmt<W: fmt::Write>(&self, f: &mut fmt::Formatter<W>) -> fmt::Result {
        write!(f, "  {:<18}", self.stage)?;
        match self.cell {
            Some(cell) => write!(f, "{cell:>4} ")?,
            None => write!(f, "   - ")?,
        }
        for cell in &self.cells {
            match cell {
                Cell {
                    count: 0,
                    link0: None,
                    ..
                } => write!(f, " .")?,
                Cell { count: 0, .. } => write!(f, " o")?,
                Cell { count, .. } => write!(f, " {count}")?,
            }
        }
        write!(f, "  tally {}", tally(&self.cells))
    }
}

// What happened to one beam, a row for each stage, kept till every hold is spent and it can be printed.
#[derive(Drop)]
pub struct Log {
    rows: [Option<Row>; STAGES],
}

impl Log {
    pub fn new() -> Log {
        Log {
            rows: [None; STAGES],
        }
    }

    pub fn note(&mut self, stage: Stage, cell: Option<u16>, table: &[Cell]) {
        self.rows[stage as usize] = Some(Row {
            stage,
            cell,
            cells: first_cells(table),
        });
    }
}

impl fmt::Display for Log {
    fn fmt<W: fmt::Write>(&self, f: &mut fmt::Formatter<W>) -> fmt::Result {
        for row in self.rows.iter().flatten() {
            writeln!(f, "{row}")?;
        }
        Ok(())
    }
}

fn first_cells(table: &[Cell]) -> [Cell; CELLS] {
    array::from_fn(|i| table.get(i).copied().unwrap_or(Cell::BLANK))
}
