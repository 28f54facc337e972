ghost use Rattle.bench.specs.Bench.{Stood};
ghost use Rattle.bench.specs.Lists.{Placed};
ghost use Rattle.desk.specs.Whole.{Whole, Unplaced};

use crate::benches::{DeferringBench, EagerBench};
use bench::bench::Bench;
use bench::call::{Answer, Call};
use bench::fault::{BenchFault, NoPlace};
use store::interface::Store;

// Sends one list of calls to three benches, over both of our stores and over any other. Refused where some answers have
// not as many places as there are calls.
pub fn sit<S: Store>(
    one: &mut DeferringBench<'_>,
    two: &mut EagerBench<'_>,
    any: &mut Bench<S>,
    calls: &[Call],
    first: &mut [Result<Answer, BenchFault>],
    second: &mut [Result<Answer, BenchFault>],
    third: &mut [Result<Answer, BenchFault>],
) -> Result<(), NoPlace>
    requires ok { S.Store.ok any.old.store }
    requires stood { Stood any.old.roots.slots (S.Store.means any.old.store) }
    ensures ok { S.Store.ok any.new.store }
    ensures stood { Stood any.new.roots.slots (S.Store.means any.new.store) }
    ensures whole { Placed (Whole S.Store calls.now (record { one = first.new; two = second.new; any = third.new }) (record { one = one.entry.now.bench; two = two.old.bench; any = any.old }) (record { one = one.exit.now.bench; two = two.new.bench; any = any.new })) (Unplaced calls.now (record { one = first.old; two = second.old; any = third.old }) (record { one = first.new; two = second.new; any = third.new }) (record { one = one.entry.now.bench; two = two.old.bench; any = any.old }) (record { one = one.exit.now.bench; two = two.new.bench; any = any.new })) result }
{
    if first.len() != calls.len() || second.len() != calls.len() || third.len() != calls.len() {
        return Err(NoPlace);
    }
    one.send_all(calls, first)?;
    two.send_all(calls, second)?;
    any.send_all(calls, third)?;
    Ok(())
}
