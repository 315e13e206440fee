//! Runs a tally sheet: standard input to standard output.
#![tactic(auto)]

use anyhow::bail;
use reading::MOST_BYTES;
use std::env;
use std::io::Read;
use std::rt::Env;
use tally::write_up;

const HELP: &str = "Runs a tally sheet and writes a line for each of its lines.

  sheet < SHEET

A sheet is text, one form to a line, as in examples/tally.sheet:

  (kind 1)           numbers are remainders by 31 (2: by 2147483647, 3: bytes)
  (set 3 2)          three seats, of which two rebuild a figure
  (enter 0 1 4 (5))  into line 0, house 1's figure 4, along the strip 5

Forms: kind, set, enter, sum, scale, begin, deal, gather, open, show.
A line that says `no` gives layer, line, column and cause; docs/RULES.md
explains each cause.";

// Asked for, the help goes to standard output. After a wrong call it goes to standard error.
fn help(rt: &(impl Print + Eprint), word: &str) -> anyhow::Result<()> {
    if word == "--help" {
        rt.println(HELP)?;
        return Ok(());
    }
    rt.eprintln(HELP)?;
    bail!("a sheet is read from standard input, and no argument is taken")
}

fn run(rt: &(impl Print + Eprint + Input + Env + AllocGlobal)) -> anyhow::Result<()> {
    if let Some(word) = env::args(rt)?.nth(1) {
        return help(rt, word.as_str());
    }
    let heap = rt.alloc();
    let mut sheet = Vec::new(heap);
    // one byte more than a sheet may have tells a sheet that is too long
    rt.reader()
        .take(MOST_BYTES as u64 + 1)
        .read_to_end(&mut sheet)?;
    rt.print(write_up(sheet.as_slice(), heap)?)?;
    Ok(())
}

fn main(rt: HostRuntime) -> anyhow::Result<()> {
    run(&rt)
}
