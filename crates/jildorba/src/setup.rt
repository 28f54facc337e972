ghost use Rattle.std.specs.Prelude.{◌≡◌, length, IfOk};
ghost use Rattle.jildorba.specs.Parts.{Onward};

use crate::drive::Clerk;
use crate::line::Make;
use crate::part::Part;
use desk::benches::OurBench;
use std::alloc::AllocError;
use store::cell::Cell;
use store::lowering::{AtOnce, Later, Lowering};
use store::stores::Counting;

// Makes a fresh table, sets the store up on it, and answers the lines of the part.
pub fn serve_part(
    clerk: &mut Clerk,
    part: Part,
    script: &[&str],
) -> Result<Option<Part>, AllocError>
    ensures { IfOk result (Onward part.start (length script.now)) }
{
    let mut table = vec![in clerk.heap; Cell::BLANK; usize::from(part.cells)]?;
    match part.make {
        Make::Deferring => open::<Later>(clerk, &part, table.as_mut_slice(), script),
        Make::Eager => open::<AtOnce>(clerk, &part, table.as_mut_slice(), script),
    }
}

fn open<L: Lowering>(
    clerk: &mut Clerk,
    part: &Part,
    table: &mut [Cell],
    script: &[&str],
) -> Result<Option<Part>, AllocError>
    requires { length table.old ≡ part.now.cells }
    ensures { IfOk result (Onward part.now.start (length script.now)) }
{
    let Ok(store) = Counting::<L>::set_up(table) else {
        unreachable()
    };
    let mut bench = OurBench::over(store);
    clerk.out.push_str("ok\n")?;
    clerk.serve(script, part.start, &mut bench)
}
