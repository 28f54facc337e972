ghost use Rattle.std.specs.Prelude.{◌≡◌};
ghost use Rattle.store.specs.Cells.{total};

use crate::cell::Cell;

// Adds the counts cell by cell, from 0 upwards. 128 bits hold the sum of any slice.
pub fn tally(cells: &[Cell]) -> u128
    ensures { result ≡ total cells.now }
{
    let mut sum = 0;
    'each: for cell in cells {
        sum += u128::from(cell.count);
    }
    sum
}
