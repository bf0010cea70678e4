// Works the settlement course's examples and one whole hour with the proved library, and prints what it did in words and figures.
#![tactic(auto)]

mod amounts;
mod course;
mod hour;

use printing::{Stop, finish};
use std::io;
use std::io::{BufWriter, Write};

fn print_all<W: Write>(out: &mut W) -> Result<(), Stop> {
    writeln!(out, "Examples of the settlement course")?;
    course::write_examples(out)?;
    hour::settle(out)?;
    hour::leave_no_cent(out)
}

fn main(rt: HostRuntime) -> io::Result<()> {
    let mut out = BufWriter::new(rt.alloc(), rt.stdout())?;
    let stopped = print_all(&mut out);
    finish(&mut out, stopped)
}
