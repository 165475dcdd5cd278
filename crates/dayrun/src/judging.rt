// One message of the day: judged, and its line added to the report.
ghost use Rattle.std.specs.Prelude.{◌≡◌, ◌+◌, ◌^◌, ◌<◌, ◌≤◌, length};
ghost use Rattle.octets.specs.Part.{splice};
ghost use Rattle.submission.specs.Lent.{lent_of};
ghost use Rattle.day.specs.Report.{longest_line, report_line};
ghost use Rattle.dayrun.specs.Day.{most_messages, lines_of};
ghost use Rattle.dayrun.specs.Blocks.{JudgedAtOnce};
ghost use Rattle.dayrun.specs.Progress.{counted, step_at, progress_after, Steps};

use day::{Frame, LENGTH_SIZE, next_frame, write_line};
use octets::part_of;
use repository::{Answer, LARGEST_CAPACITY, LONGEST_MESSAGE, Refusal, submit};

// What a message above the longest is refused for.
const OVERLONG: Refusal = Refusal::Message(rules::Refusal::LayoutWrong);

// How far the day has come: bytes of the input that are passed, bytes of the report that wait to be written, messages
// judged, lines published, and whether the report can still be written.
// Stays: is_open is no Option of the rest: clause 11.10 stops the writing alone, and the contracts go on with the numbers.
#[derive(Clone, Copy, Debug, PartialEq, Eq)]
pub struct Progress {
    pub at: usize,
    pub used: usize,
    pub judged: u64,
    pub published: u64,
    pub is_open: bool,
}

// The lines that an answer publishes.
#[tactic(auto, unfolding(crate::specs::Day::lines_of))]
fn lines_of(identifier: u64) -> u64
    ensures value { result ≡ lines_of identifier }
    ensures upper_bound { result ≤ 1 }
{
    u64::from(identifier != 0)
}

// Adds the line of a message that takes so many bytes of the input.
fn report(out: &mut [u8], p: Progress, taken: usize, a: Answer) -> Progress
    requires taken_bound { p.at + taken < 2 ^ 64 }
    requires longest_line_in_bounds { p.used + longest_line ≤ length out.old }
    requires published_le_judged { p.published ≤ p.judged }
    requires judged_lt_most_messages { p.judged < most_messages }
    ensures value { result ≡ counted p taken (report_line (p.judged + 1) a.verdict a.element a.identifier) a.identifier }
    ensures out_after { out.new ≡ splice out.old p.used (report_line (p.judged + 1) a.verdict a.element a.identifier) }
    ensures at_value { (result.at ≡ p.at + taken) × (result.used ≤ p.used + longest_line) × (result.judged ≡ p.judged + 1) × (result.published ≤ result.judged) }
{
    let position = p.judged + 1;
    let used = write_line(out, p.used, position, a.verdict, a.element, a.identifier);
    Progress {
        at: p.at + taken,
        used,
        judged: position,
        published: p.published + lines_of(a.identifier),
        ..p
    }
}

// Judges the message at the front of what is left of the input, if it is there whole.
// Stays: no struct of the five parameters: `run` writes the input and this reads it, and the contracts speak of each by its name.
#[tactic(auto, using(crate::proofs::DayLaws::judged_at_once))]
pub fn judge_next(
    ledger: &mut [u8],
    tape: &mut [u8],
    input: &[u8],
    out: &mut [u8],
    p: Progress,
) -> Progress
    requires at_in_bounds { p.at ≤ length input.now }
    requires longest_line_in_bounds { p.used + longest_line ≤ length out.old }
    requires published_le_judged { p.published ≤ p.judged }
    requires judged_lt_most_messages { p.judged < most_messages }
    ensures value { result ≡ progress_after p (step_at (lent_of ledger.old tape.old) input.now p) }
    ensures out_after { out.new
        ≡ splice out.old p.used (step_at (lent_of ledger.old tape.old) input.now p).line }
    ensures tape_after { lent_of ledger.new tape.new
        ≡ (step_at (lent_of ledger.old tape.old) input.now p).after.lent }
    ensures steps { Steps (length input.now) p result }
    ensures judged_at_once { JudgedAtOnce }
{
    let rest = &input[p.at..];
    match next_frame(rest, LONGEST_MESSAGE) {
        Frame::Message(n) => {
            let m = part_of(rest, LENGTH_SIZE, n);
            let a = submit(ledger, tape, m, LONGEST_MESSAGE, LARGEST_CAPACITY);
            report(out, p, LENGTH_SIZE + n, a)
        }
        Frame::Overlong(n) => report(out, p, LENGTH_SIZE + n, Answer::from(OVERLONG)),
        Frame::Partial => p,
    }
}
