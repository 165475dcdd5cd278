// The table of actions, as specs/Table.antt has it: the texts, the columns with a row for each action, and the matrix of Appendix F.
ghost use Rattle.std.specs.Prelude.{◌≡◌};
ghost use Rattle.actions.specs.Actions.{action_of, IsRow};

use crate::Action;
use crate::Action::*;
use crate::statuses::Status;
use Kind::*;
use values::EVENT_SIZE;

// The kinds of messages: full ones and short ones take and need other elements.
#[derive(Clone, Copy, Debug, PartialEq, Eq)]
pub enum Kind {
    Full,
    Short,
}

// What the table says of an action beside its text: its row in the matrix; the kind of its messages; whether it is a new swap's, writes
// a line, and only where it changes the stored terms, repeats the stored execution time; the status after it from unknown, live, closed,
// errored, ported, where such a step exists.
#[derive(Clone, Copy)]
pub struct Columns {
    pub place: usize,
    pub kind: Kind,
    pub new: bool,
    pub line: bool,
    pub change: bool,
    pub repeats: bool,
    pub steps: [Option<Status>; STATUSES],
}

// The code of the element that holds the action.
pub const ACTION_TYPE: u8 = 2;

// The marks of the table.
const Y: bool = true;

const N: bool = false;

// Where a step leads to.
const LIVE: Option<Status> = Some(Status::Live);

const CLOSED: Option<Status> = Some(Status::Closed);

const ERRORED: Option<Status> = Some(Status::Errored);

const PORTED: Option<Status> = Some(Status::Ported);

// How many actions and statuses there are, unknown included.
const ACTIONS: usize = 7;

const STATUSES: usize = 5;

// The column of no event.
pub const NO_EVENT: usize = 12;

// The columns of the matrix; behind them stands that of no event.
pub const EVENTS: [[u8; EVENT_SIZE]; NO_EVENT] = [
    *b"TRAD", *b"NOVA", *b"COMP", *b"ETRM", *b"CLRG", *b"EXER", *b"ALOC", *b"CLAL", *b"CREV",
    *b"PTNG", *b"CORP", *b"UPDT",
];

// The matrix of Appendix F.
pub const MATRIX: [[bool; NO_EVENT + 1]; ACTIONS] = [
    [Y, Y, Y, N, Y, Y, Y, Y, N, Y, Y, Y, N], // NEWT
    [Y, Y, Y, N, N, Y, Y, N, Y, N, Y, Y, N], // MODI
    [N, N, N, N, N, N, N, N, N, N, N, N, Y], // CORR
    [N, Y, Y, Y, Y, Y, Y, Y, Y, N, Y, N, N], // TERM
    [N, N, N, N, N, N, N, N, N, N, N, N, Y], // EROR
    [N, N, N, N, N, N, N, N, N, N, N, N, Y], // REVI
    [N, N, N, N, N, N, N, N, N, Y, N, N, N], // PRTO
];

// A row, in the order of the columns.
// Stays: as a struct literal with named fields a row takes nine lines, and the table is no longer seen at one look.
fn row(
    place: usize,
    kind: Kind,
    new: bool,
    line: bool,
    change: bool,
    repeats: bool,
    steps: [Option<Status>; STATUSES],
) -> Columns
    ensures { result ≡ record { place = place; kind = kind; new = new; line = line; change = change; repeats = repeats; steps = steps } }
{
    Columns {
        place,
        kind,
        new,
        line,
        change,
        repeats,
        steps,
    }
}

// The action's row.
pub fn columns_of(a: Action) -> Columns
    ensures { IsRow a result }
{
    match a {
        Newt => row(0, Full, Y, Y, N, N, [LIVE, None, None, None, None]),
        Modi => row(1, Full, N, Y, Y, Y, [None, LIVE, None, None, None]),
        Corr => row(2, Full, N, Y, N, N, [None, LIVE, CLOSED, None, None]),
        Term => row(3, Short, N, Y, N, N, [None, CLOSED, None, None, None]),
        Eror => row(4, Short, N, Y, N, N, [None, ERRORED, ERRORED, None, None]),
        Revi => row(5, Full, N, Y, N, Y, [None, None, LIVE, LIVE, None]),
        Prto => row(6, Short, N, N, N, N, [None, PORTED, None, None, None]),
    }
}

// What the value of element 2 says.
#[tactic(auto, unfolding(crate::specs::Actions::action_of, octets::specs::Same::look_up, octets::specs::Same::same_bytes, octets::specs::Text::text))]
pub fn read_action(v: &[u8]) -> Result<Action, u8>
    ensures { result ≡ action_of v.now }
{
    match v {
        b"NEWT" => Ok(Newt),
        b"MODI" => Ok(Modi),
        b"CORR" => Ok(Corr),
        b"TERM" => Ok(Term),
        b"EROR" => Ok(Eror),
        b"REVI" => Ok(Revi),
        b"PRTO" => Ok(Prto),
        _ => Err(ACTION_TYPE),
    }
}
