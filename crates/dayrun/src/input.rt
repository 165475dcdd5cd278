// The input comes in blocks. What is left of a block, a message that is not whole yet, is kept for the next.
ghost use Rattle.std.specs.Prelude.{◌+◌, ◌-◌, ◌^◌, ◌<◌, ◌≤◌, ◌≡◌, length, take};
ghost use Rattle.octets.specs.Part.{part, splice};
ghost use Rattle.dayrun.specs.Progress.{block_size};

use day::{LONGEST_FRAME, keep};
use std::fs;
use std::io::Read;
use std::rt::HostRuntime;

// As many bytes are read at a time, beside a message that is not whole yet.
const BLOCK_SIZE: usize = 65_536;

// Stays: a buffer of one size with a length beside: the program has fixed memory and no heap.
pub const INPUT_SIZE: usize = LONGEST_FRAME + BLOCK_SIZE;

// Reads once, behind the bytes that are kept and stay, and answers how many bytes came; none at the end of the input, or where
// reading fails.
// Stays: 0 for the end and for a failure, no Option: clause 11.10 has a read that fails count as the end.
pub fn read_block(rt: &HostRuntime, input: &mut [u8], kept: usize) -> usize
    requires { kept + block_size ≤ length input.old }
    ensures input_unchanged { take kept input.new ≡ take kept input.old }
    ensures result_in_bounds { kept + result ≤ length input.new }
    ensures result_bound { kept + result < 2 ^ 64 }
{
    let mut stdin = rt.stdin();
    stdin.read(&mut input[kept..]).unwrap_or(0)
}

// Whether a read of the input can wait: a file's cannot, a pipe's can.
pub fn can_wait(rt: &HostRuntime) -> bool {
    fs::metadata(rt, "/dev/stdin").map_or(true, |input| !input.is_file())
}

// Keeps what is left of n bytes from `at` on, at the front, and answers how many bytes that is.
pub fn keep_rest(input: &mut [u8], at: usize, n: usize) -> usize
    requires at_le_n { at ≤ n }
    requires n_in_bounds { n ≤ length input.old }
    ensures input_after { input.new ≡ splice input.old 0 (part input.old at (n - at)) }
    ensures value { result ≡ n - at }
{
    let rest = n - at;
    keep(input, at, rest);
    rest
}
