use crate::drive::Desk;
use bench::call::{Answer, Call};
use bench::fault::BenchFault;
use desk::benches::OurBench;
use store::cell::Cell;
use store::lowering::Lowering;

impl<L: Lowering> Desk for OurBench<'_, L> {
    fn send(&mut self, call: &Call) -> Result<Answer, BenchFault> {
        self.send(call)
    }

    fn cells(&self) -> &[Cell] {
        self.cells()
    }

    fn root(&self, r: u8) -> Option<u16> {
        self.root(r)
    }
}
