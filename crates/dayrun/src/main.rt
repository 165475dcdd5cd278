// Judges a day of messages from standard input and writes its report to standard output: specification, section 11.
#![tactic(auto)]

mod input;
mod judging;
mod output;
mod run;

ghost use Rattle.std.specs.Prelude.{◌≡◌};
ghost use Rattle.dayrun.specs.Blocks.{Examples};
ghost use Rattle.dayrun.specs.Day.{new_day};

use input::INPUT_SIZE;
use ledger::{Caps, HEADER_SIZE, LINE_SIZE, ROW_SIZE};
use output::OUTPUT_SIZE;
use repository::LARGEST_CAPACITY;
use std::rt::HostRuntime;

// The rows of the day's ledger, and the cap of every asset class.
const ROWS: usize = 340;

const CAP: u64 = 250_000_000;

const LEDGER_SIZE: usize = HEADER_SIZE + ROWS * ROW_SIZE;

// The ledger before the first message.
fn new_ledger() -> [u8; LEDGER_SIZE]
    ensures value { result ≡ new_day.lent.ledger }
    ensures examples { Examples }
{
    let mut ledger = [0u8; LEDGER_SIZE];
    let caps = Caps {
        cr: CAP,
        ir: CAP,
        fx: CAP,
        eq: CAP,
        co: CAP,
    };
    let _ = repository::open(&mut ledger, caps, LARGEST_CAPACITY);
    ledger
}

fn main(rt: HostRuntime) {
    let mut ledger = new_ledger();
    let mut tape = [0u8; LINE_SIZE];
    let mut input = [0u8; INPUT_SIZE];
    let mut out = [0u8; OUTPUT_SIZE];
    run::run(&rt, &mut ledger, &mut tape, &mut input, &mut out);
}
