// Which events go with which action: the matrix of Appendix F.
ghost use Rattle.std.specs.Prelude.{◌≡◌, ◌≤◌};
ghost use Rattle.actions.specs.Matrix.{no_event, tick, pair_allowed, NamedPairs};

use crate::Action;
use crate::table::{EVENTS, MATRIX, NO_EVENT, columns_of};
use octets::find_code;

// The matrix at an action and a column.
fn has_tick(a: Action, column: usize) -> bool
    requires { column ≤ no_event }
    ensures { result ≡ tick a column }
{
    let row = columns_of(a).place;
    MATRIX[row][column]
}

// Whether the action and the event, or its absence, are a pair of the matrix.
#[tactic(auto, using(crate::proofs::MatrixLaws::named_pairs))]
pub fn is_pair(a: Action, event: &[u8]) -> bool
    ensures value { result ≡ pair_allowed a event.now }
    ensures named_pairs { NamedPairs }
{
    if event.is_empty() {
        return has_tick(a, NO_EVENT);
    }
    let Some(column) = find_code(event, &EVENTS) else {
        return false;
    };
    has_tick(a, column)
}
