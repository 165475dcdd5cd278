// Answers a table of tests. Each line of standard input is a word, a space and what it asks of; the line is written out with
// the core's answer. The answers that are due come from the separate checker (host/checker).
#![tactic(auto)]

mod fields;
mod forms;
mod lines;
mod tables;
mod text;

use fields::{bytes_at, field_at, number_at, rest_of};
use std::io;
use std::io::{BufReader, BufWriter, Read, Write};
use text::{Hex, yes_or_no};

// The longest line, and the most lines that are read.
const LINE: usize = 5000;

const LINES: usize = 1_000_000;

// The numbers that fit a byte, as an element's code does in the core.
const CODES: u64 = 256;

fn main(rt: HostRuntime) -> io::Result<()> {
    let mut input = BufReader::new(rt.alloc(), rt.reader())?;
    let mut out = BufWriter::new(rt.alloc(), rt.stdout())?;
    let mut room = [0u8; LINE];
    for _ in 0..LINES {
        let Some(line) = read_line(&mut input, &mut room)? else {
            break;
        };
        answer_line(&mut out, line)?;
    }
    out.flush()
}

// Reads a line, byte by byte, as far as there is room for it; none where the input ends before its newline.
fn read_line<'a>(input: &mut impl Read, room: &'a mut [u8]) -> io::Result<Option<&'a [u8]>> {
    for n in 0..room.len() {
        let mut byte = [0u8; 1];
        if input.read(&mut byte)? == 0 {
            return Ok(None);
        }
        if byte[0] == b'\n' {
            return Ok(Some(&room[..n]));
        }
        room[n] = byte[0];
    }
    Ok(Some(room))
}

fn answer_line(out: &mut impl Write, line: &[u8]) -> io::Result<()> {
    out.write_all(line)?;
    write!(out, " -> ")?;
    answer(out, field_at(line, 0), rest_of(line))?;
    writeln!(out)
}

// What a word asks of the rest of its line.
fn answer(out: &mut impl Write, word: &[u8], rest: &[u8]) -> io::Result<()> {
    match word {
        b"pair" => tables::say_pair(out, rest),
        b"step" => tables::say_step(out, rest),
        b"cap" => lines::say_is_cap(out, rest),
        b"shown" => lines::say_price(out, rest),
        b"masked" => lines::say_masked(out, rest),
        b"element" => answer_element(out, rest),
        _ => match has_form(word, rest) {
            Some(is_right) => write!(out, "{}", yes_or_no(is_right)),
            None => write!(out, "?"),
        },
    }
}

// A rest that opens with # is hexadecimal.
fn has_form(word: &[u8], rest: &[u8]) -> Option<bool> {
    if !rest.starts_with(b"#") {
        return forms::has_form(word, rest);
    }
    let mut room = [0u8; text::LONGEST];
    forms::has_form(word, bytes_at(rest, 0, &mut room))
}

// The rest is a code, a space, # and a message.
fn answer_element(out: &mut impl Write, rest: &[u8]) -> io::Result<()> {
    let mut room = [0u8; text::LONGEST];
    let m = bytes_at(rest, 1, &mut room);
    let code = (number_at(rest, 0) % CODES) as u8;
    write!(out, "{}", Hex(message::element(m, code)))
}
