// Reads a script, from the file that its argument names or else from standard input, and prints the answers.
#![tactic(auto)]

mod desks;
mod drive;
mod hex;
mod line;
mod numbers;
mod part;
mod setup;
mod show;
#[cfg(test)]
mod tests;
mod unreadable;

use anyhow::anyhow;
use drive::{Clerk, NoDesk};
use setup::serve_part;
use std::alloc::AllocError;
use std::io::Read;
use std::{env, fs};

fn main(rt: HostRuntime) -> anyhow::Result<()> {
    run(&rt)
}

fn run(rt: &HostRuntime) -> anyhow::Result<()> {
    let heap = rt.alloc();
    let bytes = read_input(rt)?;
    // Bytes that are no text are shown as such where their line is refused.
    let text = String::from_utf8_lossy(heap, bytes.as_slice())?;
    let script: Vec<&str> = text.as_str().lines().collect(heap)?;
    answer_all(rt, script.as_slice())
}

fn read_input(rt: &HostRuntime) -> anyhow::Result<Vec<u8>> {
    let mut args = env::args(rt)?;
    let _program = args.next();
    let path = args.next();
    if args.next().is_some() {
        return Err(anyhow!("more than one argument: name one script, or none for standard input"));
    }
    if let Some(path) = path {
        return Ok(fs::read(rt, path.as_str())?);
    }
    let mut bytes = Vec::new(rt.alloc());
    rt.stdin().read_to_end(&mut bytes)?;
    Ok(bytes)
}

// Prints the answers part by part.
fn answer_all(rt: &HostRuntime, script: &[&str]) -> anyhow::Result<()> {
    let mut clerk = Clerk::new(rt.alloc());
    let mut next = clerk.serve(script, 0, &mut NoDesk).map_err(no_memory)?;
    while let Some(part) = next {
        rt.print(clerk.out.as_str())?;
        clerk.out.clear();
        next = serve_part(&mut clerk, part, script).map_err(no_memory)?;
    }
    rt.print(clerk.out.as_str())?;
    Ok(())
}

// Text that is kept in memory is refused for no other reason.
fn no_memory(_e: AllocError) -> anyhow::Error {
    anyhow!("no memory is left")
}
