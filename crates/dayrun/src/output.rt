// The report waits in a buffer. It is written out where there is enough of it, and before a read that may wait.
ghost use Rattle.std.specs.Prelude.{true, ◌≡◌, leb};
ghost use Rattle.octets.specs.Part.{part, PartOf};
ghost use Rattle.dayrun.specs.Progress.{write_size, written};

use crate::judging::Progress;
use day::LONGEST_LINE;
use octets::part_of;
use std::io;
use std::io::Write;
use std::rt::HostRuntime;

// As many bytes are written at a time.
pub const WRITE_SIZE: usize = 32_768;

// Stays: a buffer of one size with a length beside: the program has fixed memory and no heap.
pub const OUTPUT_SIZE: usize = WRITE_SIZE + LONGEST_LINE;

// Stays: `used` beside the buffer and its bound: Progress goes through values, the definitions have it so, and the buffer is lent beside it.
// The bytes of the report that wait to be written.
pub fn waiting<'a>(out: &'a [u8], used: usize) -> &'a [u8]
    ensures { (result.now ≡ part out.now 0 used) × PartOf out.entry 0 result }
{
    part_of(out, 0, used)
}

// Writes bytes to standard output.
pub fn write_all(rt: &HostRuntime, s: &[u8]) -> io::Result<()> {
    let mut stdout = rt.stdout();
    stdout.write_all(s)
}

// Writes out what waits.
pub fn write_out(rt: &HostRuntime, out: &[u8], p: Progress) -> Progress
    ensures { result ≡ written true result.is_open p }
{
    let is_open = write_all(rt, waiting(out, p.used)).is_ok();
    Progress {
        used: 0,
        is_open,
        ..p
    }
}

// Stays: beside `before_read`, which differs in its condition alone: each has a must-fail edit that changes its own body.
// Writes out what waits where there is enough of it.
pub fn write_enough(rt: &HostRuntime, out: &[u8], p: Progress) -> Progress
    ensures { result ≡ written (leb write_size p.used) result.is_open p }
{
    if WRITE_SIZE <= p.used {
        return write_out(rt, out, p);
    }
    p
}
