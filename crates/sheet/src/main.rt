// Prints the job on standard input: its runs in file order, or its refusal.
// Only the first bytes of a file decide: what stands past byte 17,274 changes no answer.

#![tactic(auto)]

ghost use Rattle.std.specs.Prelude.{OnOk};
ghost use Rattle.sheet.specs.Printed.{JobPrinted};

use printing::jobs::{ROOM, put_job};
use std::io;
use std::io::{Read, Write};
use streams::read_full;

// Reads a job and prints it. No text is longer than the buffer.
fn print_job<R: Read, W: Write>(from: &mut R, to: &mut W) -> io::Result<()>
    ensures { OnOk result (JobPrinted (R.remaining from.old) (R.remaining from.new) (W.contents to.old) (W.contents to.new)) }
{
    let mut file = [0u8; 65536];
    let length = read_full(from, &mut file)?;
    let mut out = [0u8; ROOM];
    let end = put_job(steps::none(), &file[..length], &mut out);
    to.write_all(&out[..end])
}

fn main(rt: HostRuntime) -> io::Result<()> {
    print_job(&mut rt.stdin(), &mut rt.stdout())
}
