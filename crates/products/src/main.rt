//! Every product of two bytes, compared with an independent program, tools/products.py.
#![tactic(auto)]

use kinds::{Byte, Code, Kind};
use std::io;

// Every product with a byte, in hexadecimal.
fn byte_row(rt: &(impl Alloc + Print), a: Code) -> io::Result<()> {
    let mut row = format!(in rt.alloc(); "{a:02x}: ")?;
    for b in 0..256 {
        write!(row, "{:02x}", Byte::product(a, b))?;
    }
    rt.println(row)
}

fn main(rt: HostRuntime) -> io::Result<()> {
    for a in 0..256 {
        byte_row(&rt, a)?;
    }
    Ok(())
}
