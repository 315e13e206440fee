//! Runs each sheet named by an argument, and writes its name and its text.
#![tactic(auto)]

use anyhow::bail;
use std::rt::{Env, Files};
use std::{env, fs};
use tally::write_up;

fn run(rt: &(impl Print + Eprint + Env + Files + AllocGlobal)) -> anyhow::Result<()> {
    let heap = rt.alloc();
    for name in env::args(rt)?.skip(1) {
        // both failures in this program's own words
        let Ok(sheet) = fs::read(rt, name.as_str()) else {
            rt.eprintln(name)?;
            bail!("this sheet cannot be read");
        };
        rt.println(name)?;
        let Ok(text) = write_up(sheet.as_slice(), heap) else {
            bail!("there is not enough memory for a sheet's text");
        };
        rt.print(text)?;
    }
    Ok(())
}

fn main(rt: HostRuntime) -> anyhow::Result<()> {
    run(&rt)
}
