// Reads a plan text from standard input and writes its listing to standard output. A plan at fault is no failure of the program.
#![tactic(auto)]

use input::{Front, fill_front};
use listing::list;
use std::io::Write;

// Room for every listing.
const LISTING_ROOM: usize = 512;

fn run(rt: &HostRuntime) -> anyhow::Result<()> {
    let mut front = Front::new();
    let mut buffer = [0u8; LISTING_ROOM];
    fill_front(&mut rt.stdin(), &mut front)?;
    let length = list(front.bytes(), &mut buffer)?;
    rt.stdout().write_all(&buffer[0..length])?;
    Ok(())
}

fn main(rt: HostRuntime) -> anyhow::Result<()> {
    run(&rt)
}
