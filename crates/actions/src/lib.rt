// The seven actions (specification, section 5): how they are read, which events go with each, and the steps of a swap's status.
#![tactic(auto)]

mod matrix;
mod statuses;
mod table;

ghost use Rattle.std.specs.Prelude.{◌≡◌};
ghost use Rattle.actions.specs.Actions.{is_full, writes_line, needs_change, is_new, repeats_time};

pub use matrix::is_pair;
pub use statuses::{NoStatus, Status, UNKNOWN, status_after};
pub use table::{ACTION_TYPE, read_action};
use table::{Kind, columns_of};

#[derive(Clone, Copy, Debug, PartialEq, Eq)]
pub enum Action {
    Newt,
    Modi,
    Corr,
    Term,
    Eror,
    Revi,
    Prto,
}

// Stays: five readers of a column each, since the definitions and other crates' contracts and calls have each by this name.

// Whether a message of the action is full.
pub fn is_full(a: Action) -> bool
    ensures { result ≡ is_full a }
{
    columns_of(a).kind == Kind::Full
}

// Whether an accepted message of the action writes a tape line.
pub fn writes_line(a: Action) -> bool
    ensures { result ≡ writes_line a }
{
    columns_of(a).line
}

// Whether it does so only where its masked terms are not the stored ones.
pub fn needs_change(a: Action) -> bool
    ensures { result ≡ needs_change a }
{
    columns_of(a).change
}

// Whether the action is that of a new swap.
pub fn is_new(a: Action) -> bool
    ensures { result ≡ is_new a }
{
    columns_of(a).new
}

// Whether a message of the action repeats the stored execution time.
pub fn repeats_time(a: Action) -> bool
    ensures { result ≡ repeats_time a }
{
    columns_of(a).repeats
}
