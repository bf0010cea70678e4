// Settles two whole hours with the proved library: files each call by call, and prints its statement under both sharing rules.
#![tactic(auto)]

mod filing;
mod hour;
mod table;

use printing::{Stop, finish};
use std::io;
use std::io::{BufWriter, Write};

fn print_all<W: Write>(out: &mut W) -> Result<(), Stop> {
    writeln!(out, "Whole hours, each filed call by call")?;
    hour::settle_hours(out)
}

fn main(rt: HostRuntime) -> io::Result<()> {
    let mut out = BufWriter::new(rt.alloc(), rt.stdout())?;
    let stopped = print_all(&mut out);
    finish(&mut out, stopped)
}
