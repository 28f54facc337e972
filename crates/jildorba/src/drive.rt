ghost use Rattle.std.specs.Prelude.{◌≡◌, ◌+◌, ◌<◌, ◌≤◌, ◌^◌, [], length, IfOk};
ghost use Rattle.std.specs.String.{string_bytes};
ghost use Rattle.jildorba.specs.Parts.{Onward, OpensAfter};

use crate::hex::bytes_of;
use crate::line::{Ask, Line, read_line};
use crate::part::Part;
use crate::show::{Cells, HELP, Roots};
use crate::unreadable::{Misread, Unreadable};
use bench::call::{Answer, Call};
use bench::fault::BenchFault;
use rule::check::check;
use std::alloc::{AllocError, Global};
use std::array;
use store::cell::Cell;
use store::fault::Report;
use store::tally::tally;

// A bench that a script is sent to.
pub trait Desk {
    fn send(&mut self, call: &Call) -> Result<Answer, BenchFault>;

    // The table as it stands.
    fn cells(&self) -> &[Cell];

    // The cell that a root names.
    fn root(&self, r: u8) -> Option<u16>;
}

// Whom the lines of a script ask.
pub trait Asked {
    // Prints the answer.
    fn ask(&mut self, ask: &Ask, out: &mut String) -> Result<(), Misread<'static>>;
}

impl<D: Desk> Asked for D {
    #[inline(always)]
    fn ask(&mut self, ask: &Ask, out: &mut String) -> Result<(), Misread<'static>> {
        match ask {
            Ask::Call(call) => match self.send(call) {
                Ok(answer) => writeln!(out, "{answer}")?,
                Err(fault) => writeln!(out, "{fault}")?,
            },
            Ask::Tally => writeln!(out, "tally {}", tally(self.cells()))?,
            Ask::Roots => {
                let roots = array::from_fn(|r| self.root(r as u8));
                writeln!(out, "{}", Roots(&roots))?;
            }
            Ask::Cells => write!(out, "{}", Cells(self.cells()))?,
        }
        Ok(())
    }
}

// No bench stands yet.
#[derive(Clone, Copy)]
pub struct NoDesk;

impl Asked for NoDesk {
    fn ask(&mut self, _ask: &Ask, _out: &mut String) -> Result<(), Misread<'static>> {
        Err(Unreadable::NoStore.into())
    }
}

// Answers the lines of a script, and has what is to be printed.
#[derive(Drop)]
pub struct Clerk {
    pub heap: Global,
    pub out: String,
}

impl Clerk {
    // With nothing to print yet.
    pub fn new(heap: Global) -> Clerk
        ensures { string_bytes result.out ≡ [] }
    {
        Clerk {
            heap,
            out: String::new(heap),
        }
    }

    // Answers the lines from `start` on, until one sets up the next bench.
    pub fn serve<A: Asked>(
        &mut self,
        script: &[&str],
        start: usize,
        asked: &mut A,
    ) -> Result<Option<Part>, AllocError>
        ensures { IfOk result (Onward start (length script.now)) }
    {
        for (i, line) in script.iter().enumerate().skip(start) {
            match self.answer(line, i, asked) {
                Ok(None) => {}
                Ok(part) => return Ok(part),
                Err(Misread::NoMemory(e)) => return Err(e),
                Err(Misread::Unreadable(why)) => {
                    writeln!(self.out, "line {}: {why}", i + 1)?;
                }
            }
        }
        Ok(None)
    }

    // Answers line i, unless it opens a part.
    #[inline(always)]
    fn answer<'a, A: Asked>(
        &mut self,
        line: &'a str,
        i: usize,
        asked: &mut A,
    ) -> Result<Option<Part>, Misread<'a>>
        requires { i + 1 < 2 ^ 64 }
        ensures { IfOk result (OpensAfter i) }
    {
        let number = i + 1;
        match read_line(line)? {
            Line::Blank => {}
            Line::Help => self.out.push_str(HELP)?,
            Line::Setup { make, cells } => match Part::new(make, cells, number) {
                Ok(part) => return Ok(Some(part)),
                Err(fault) => writeln!(self.out, "{}", Report::from(fault))?,
            },
            Line::Check(words) => match check(bytes_of(self.heap, words)?.as_slice()) {
                Ok(n) => writeln!(self.out, "records {n}")?,
                Err(fault) => writeln!(self.out, "{fault}")?,
            },
            Line::Ask(ask) => asked.ask(&ask, &mut self.out)?,
        }
        Ok(None)
    }
}
