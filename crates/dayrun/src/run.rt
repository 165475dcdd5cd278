// The whole run: reading, judging and writing by turns.
ghost use Rattle.std.specs.Prelude.{◌+◌, ◌≤◌, ◌≡◌, length, ltb};
ghost use Rattle.octets.specs.Choice.{choose};
ghost use Rattle.octets.specs.Part.{splice};
ghost use Rattle.submission.specs.Lent.{lent_of};
ghost use Rattle.day.specs.Frame.{longest_frame};
ghost use Rattle.day.specs.Report.{heading, longest_line, last_line};
ghost use Rattle.dayrun.specs.Day.{new_day};
ghost use Rattle.dayrun.specs.Blocks.{NothingLost};
ghost use Rattle.dayrun.specs.Progress.{write_size, block_size, JudgedUpTo, Within, Leaves, at_start, at_front, written};

use crate::input::{can_wait, keep_rest, read_block};
use crate::judging::{Progress, judge_next};
use crate::output::{waiting, write_all, write_enough, write_out};
use day::{write_heading, write_last};
use std::rt::HostRuntime;

// The messages that are judged at most, and the reads; no input reaches them.
const MOST_MESSAGES: u64 = 1_000_000_000_000_000_000;

const MOST_READS: u64 = u64::MAX;

// A run that stops before the end of the input leaves some of it over.
const LEFT_OVER: usize = 1;

// Stays: room in the report is asked of three functions, no array of OUTPUT_SIZE: the law JudgedUpTo is of a report of any size.
// The first line waits to be written.
fn start(out: &mut [u8]) -> Progress
    requires { write_size + longest_line ≤ length out.old }
    ensures value { result ≡ at_start }
    ensures out_after { out.new ≡ splice out.old 0 heading }
{
    let used = write_heading(out, 0);
    Progress {
        at: 0,
        used,
        judged: 0,
        published: 0,
        is_open: true,
    }
}

// Adds the last line, behind so many bytes of a message that is not whole, and writes out what waits.
fn finish(rt: &HostRuntime, out: &mut [u8], p: Progress, kept: usize)
    requires { p.used + longest_line ≤ length out.old }
    ensures { out.new ≡ choose p.is_open (splice out.old p.used (last_line (ltb 0 kept) p.judged p.published)) out.old }
{
    if p.is_open {
        let used = write_last(out, p.used, 0 < kept, p.judged, p.published);
        let _ = write_all(rt, waiting(out, used));
    }
}

// Judges the messages that are whole.
#[tactic(auto, using(crate::proofs::DayLaws::nothing_lost))]
fn judge_block(
    rt: &HostRuntime,
    ledger: &mut [u8],
    tape: &mut [u8],
    input: &[u8],
    out: &mut [u8],
    start: Progress,
) -> Progress
    requires within { Within (length input.now) write_size start }
    requires longest_line_in_bounds { write_size + longest_line ≤ length out.old }
    ensures judged_up_to { JudgedUpTo (lent_of ledger.old tape.old) input.now out.old start
        (lent_of ledger.new tape.new) out.new result }
    ensures within_after { Within (length input.now) write_size result }
    ensures leaves { Leaves input.now result }
    ensures nothing_lost { NothingLost }
{
    let mut p = start;
    while p.is_open && p.judged < MOST_MESSAGES {
        let before = p.at;
        p = judge_next(ledger, tape, input, out, p);
        if p.at == before {
            return p;
        }
        p = write_enough(rt, out, p);
    }
    p
}

// What is left of the input stands at the front.
fn from_front(p: Progress) -> Progress
    ensures { result ≡ at_front p }
{
    Progress { at: 0, ..p }
}

// Writes out what waits where the next read can wait.
fn before_read(rt: &HostRuntime, out: &[u8], waits: bool, p: Progress) -> Progress
    ensures { result ≡ written waits result.is_open p }
{
    if waits {
        return write_out(rt, out, p);
    }
    p
}

// Reads and judges block by block until the input ends.
#[tactic(auto, using(crate::proofs::ProgressLaws::start_within))]
pub fn run(rt: &HostRuntime, ledger: &mut [u8], tape: &mut [u8], input: &mut [u8], out: &mut [u8])
    requires tape_value { lent_of ledger.old tape.old ≡ new_day.lent }
    requires block_size_in_bounds { longest_frame + block_size ≤ length input.old }
    requires longest_line_in_bounds { write_size + longest_line ≤ length out.old }
{
    let waits = can_wait(rt);
    let mut p = start(out);
    let mut kept: usize = 0;
    for _ in 0..MOST_READS {
        if !p.is_open || MOST_MESSAGES <= p.judged {
            break;
        }
        p = before_read(rt, out, waits, p);
        let got = read_block(rt, input, kept);
        if got == 0 {
            finish(rt, out, p, kept);
            return;
        }
        let n = kept + got;
        p = judge_block(rt, ledger, tape, &input[..n], out, p);
        kept = keep_rest(input, p.at, n);
        p = from_front(p);
    }
    finish(rt, out, p, LEFT_OVER);
}
