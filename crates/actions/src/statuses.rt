// The steps of a swap's status.
ghost use Rattle.std.specs.Prelude.{◌≡◌};
ghost use Rattle.actions.specs.Actions.{Decodes, number_of, step_number, next_status};

use crate::Action;
use crate::table::columns_of;

// The statuses of a swap that has a row.
#[derive(Clone, Copy, Debug, PartialEq, Eq)]
pub enum Status {
    Live = 1,
    Closed = 2,
    Errored = 3,
    Ported = 4,
}

// A number that no status has.
#[derive(Clone, Copy, Debug, PartialEq, Eq)]
pub struct NoStatus(pub u8);

impl TryFrom<u8> for Status {
    type Error = NoStatus;

    ghost try_from_gives = { Decodes };

    fn try_from(number: u8) -> Result<Self, NoStatus> {
        match number {
            1 => Ok(Status::Live),
            2 => Ok(Status::Closed),
            3 => Ok(Status::Errored),
            4 => Ok(Status::Ported),
            _ => Err(NoStatus(number)),
        }
    }
}

// An unknown swap has no status; this number stands for none.
pub const UNKNOWN: u8 = 0;

// The number of a status.
impl From<Status> for u8 {
    ghost from_gives = { λ status number. number ≡ number_of status };

    fn from(status: Status) -> u8 {
        status as u8
    }
}

// The swap's status after the action, where such a step exists.
pub fn status_after(a: Action, status: u8) -> Option<Status>
    ensures { step_number result ≡ next_status a status }
{
    columns_of(a)
        .steps
        .get(usize::from(status))
        .copied()
        .flatten()
}
