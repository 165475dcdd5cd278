// What an accepted message writes: specification, sections 7 and 8. It cannot fail.
ghost use Rattle.std.specs.Prelude.{◌≤◌, ◌≡◌, length};
ghost use Rattle.ledger.specs.Layout.{line_size};
ghost use Rattle.ledger.specs.Line.{line};
ghost use Rattle.submission.specs.Lent.{lent_of};
ghost use Rattle.submission.specs.Submission.{line_due_in, terms_for, tape_after, lent_for};
ghost use Rattle.repository.specs.Decision.{Writable, shown};

use crate::decide::Admission;
use elements::UTI;
use ledger::{Change, Line, store_row, update_header, write_line};
use message::element;
use terms::SIZE;

// Writes the line where one is due.
fn publish(tape: &mut [u8], due: bool, shown: Line)
    requires { line_size ≤ length tape.old }
    ensures { tape.new
        ≡ tape_after due
        (line shown.entry.action shown.entry.identifier shown.entry.previous shown.entry.message.now shown.entry.terms.now) tape.old }
{
    if due {
        write_line(tape, shown);
    }
}

// Writes the line, the row and the header's numbers.
pub fn apply(l: &mut [u8], tape: &mut [u8], m: &[u8], s: Admission, due: bool, terms: &[u8; SIZE])
    requires { Writable (lent_of l.old tape.old) m.now (shown s)
        × (due ≡ line_due_in s.action l.old m.now) × (terms.now ≡ terms_for s.action l.old m.now) }
    ensures { lent_of l.new tape.new ≡ lent_for s.action (lent_of l.old tape.old) m.now }
{
    let line = Line {
        action: s.action,
        identifier: s.next,
        previous: s.previous,
        message: m,
        terms,
    };
    let change = Change {
        action: s.action,
        due,
        status: s.status.into(),
        uti: element(m, UTI),
        identifier: s.next,
        terms,
    };
    publish(tape, due, line);
    store_row(l, s.place, change);
    update_header(l, s.action, due, s.before, s.status, s.rows, s.next);
}
