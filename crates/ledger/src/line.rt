// The tape line: specification, section 7.
ghost use Rattle.std.specs.Prelude.{◌≡◌, ◌+◌, ◌≤◌, length};
ghost use Rattle.octets.specs.Part.{splice};
ghost use Rattle.octets.specs.Field.{field};
ghost use Rattle.ledger.specs.Layout.{line_size};
ghost use Rattle.ledger.specs.Document.{DocumentSizes};
ghost use Rattle.ledger.specs.Line.{identifier_digits, previous_text, line};

use crate::change::Line;
use crate::layout::U8;
use actions::{ACTION_TYPE, Action, is_new};
use elements::{EVENT_TIMESTAMP, EVENT_TYPE};
use message::element;
use octets::{copy_at, digits_at, field_at, fill_at};
use terms::{SIZE, TIME_SIZE};
use values::EVENT_SIZE;

// The decimal digits of an identifier.
const IDENTIFIER_DIGITS: usize = 12;

const ACTION_SIZE: usize = 4;

const NEWLINE: u8 = 10;

// Where each field starts in the line.
const DISSEMINATION_AT: usize = 0;

const PREVIOUS_AT: usize = DISSEMINATION_AT + IDENTIFIER_DIGITS;

const ACTION_AT: usize = PREVIOUS_AT + IDENTIFIER_DIGITS;

const EVENT_AT: usize = ACTION_AT + ACTION_SIZE;

const TIME_AT: usize = EVENT_AT + EVENT_SIZE;

const TERMS_START: usize = TIME_AT + TIME_SIZE;

const NEWLINE_AT: usize = TERMS_START + SIZE;

// The size of the line.
pub const LINE_SIZE: usize = NEWLINE_AT + U8;

// Writes the swap's previous identifier; spaces for a new swap.
fn previous_at(dst: &mut [u8], at: usize, a: Action, previous: u64)
    requires { at + identifier_digits ≤ length dst.old }
    ensures { dst.new ≡ splice dst.old at (field identifier_digits (previous_text a previous)) }
{
    if is_new(a) {
        fill_at(dst, at, IDENTIFIER_DIGITS, b' ');
    } else {
        digits_at(dst, at, IDENTIFIER_DIGITS, previous);
    }
}

// Writes the whole line, field by field; spaces where an element is missing.
fn write_fields(dst: &mut [u8; LINE_SIZE], shown: Line)
    ensures { dst.new
        ≡ line shown.entry.action shown.entry.identifier shown.entry.previous shown.entry.message.now shown.entry.terms.now }
{
    let m = shown.message;
    digits_at(dst, DISSEMINATION_AT, IDENTIFIER_DIGITS, shown.identifier);
    previous_at(dst, PREVIOUS_AT, shown.action, shown.previous);
    field_at(dst, ACTION_AT, ACTION_SIZE, element(m, ACTION_TYPE));
    field_at(dst, EVENT_AT, EVENT_SIZE, element(m, EVENT_TYPE));
    field_at(dst, TIME_AT, TIME_SIZE, element(m, EVENT_TIMESTAMP));
    copy_at(dst, TERMS_START, shown.terms);
    dst[NEWLINE_AT] = NEWLINE;
}

// Writes the line into the first bytes of the tape; later bytes stay.
pub fn write_line(tape: &mut [u8], shown: Line)
    requires { line_size ≤ length tape.old }
    ensures tape_after { tape.new
        ≡ splice tape.old 0
        (line shown.entry.action shown.entry.identifier shown.entry.previous shown.entry.message.now shown.entry.terms.now) }
    ensures document_sizes { DocumentSizes }
{
    write_fields(tape.first_chunk_mut().unwrap(), shown);
}
