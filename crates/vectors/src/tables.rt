// The tables of actions. The rest of a line is an action and, after a space, what the table is asked of.
use crate::text::yes_or_no;
use actions::{Action, Status};
use std::io;
use std::io::Write;

// The size of an action's code.
const ACTION: usize = 4;

// The action that opens the rest, and what is asked of its table.
fn action_and_rest(rest: &[u8]) -> Option<(Action, &[u8])> {
    let code = rest.get(..ACTION).unwrap_or(rest);
    let a = actions::read_action(code).ok()?;
    Some((a, rest.get(ACTION + 1..).unwrap_or(b"")))
}

pub fn say_pair(out: &mut impl Write, rest: &[u8]) -> io::Result<()> {
    let Some((a, event)) = action_and_rest(rest) else {
        return write!(out, "?");
    };
    write!(out, "{}", yes_or_no(actions::is_pair(a, event)))
}

pub fn say_step(out: &mut impl Write, rest: &[u8]) -> io::Result<()> {
    let Some((a, asked)) = action_and_rest(rest) else {
        return write!(out, "?");
    };
    let status = asked.first().copied().unwrap_or(0) % 16;
    say_status(out, actions::status_after(a, status))
}

// A status, or - where no step exists.
fn say_status(out: &mut impl Write, status: Option<Status>) -> io::Result<()> {
    match status {
        Some(s) => write!(out, "{}", u8::from(s)),
        None => write!(out, "-"),
    }
}
