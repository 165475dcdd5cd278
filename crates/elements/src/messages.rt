// Which elements a message may have, and which one of an action takes and needs.
ghost use Rattle.std.specs.Prelude.{◌≡◌};
ghost use Rattle.elements.specs.Messages.{has_layout, is_among, takes, needs, TakenUpTo};

use crate::table::{Kinds, LAST_CODE, LAST_FULL, LAST_SHORT, MOST_ENTRIES, element_of};
use actions::Action;
use message::layout_right;

// Whether a message of at most `longest` bytes is laid out right, with the codes that are known.
#[tactic(auto, unfolding(crate::specs::Messages::has_layout, crate::specs::Messages::most_entries, crate::specs::Messages::how_many, crate::specs::Messages::known))]
pub fn has_layout(m: &[u8], longest: usize) -> bool
    ensures { result ≡ has_layout longest m.now }
{
    let mut known = [true; LAST_CODE as usize + 1];
    known[0] = false;
    layout_right(m, longest, MOST_ENTRIES, &known)
}

// Whether a message of the action is of the kinds.
fn is_among(kinds: Kinds, a: Action) -> bool
    ensures { result ≡ is_among kinds a }
{
    match kinds {
        Kinds::None => false,
        Kinds::All => true,
        Kinds::Full => actions::is_full(a),
    }
}

// Whether a message of the action may have the element.
#[tactic(auto, unfolding(crate::specs::Messages::takes))]
pub fn is_taken(a: Action, code: u8) -> bool
    ensures { result ≡ takes a code }
{
    is_among(element_of(code).taken, a)
}

// Whether a message of the action needs the element, whatever else it has.
#[tactic(auto, unfolding(crate::specs::Messages::needs))]
pub fn is_needed(a: Action, code: u8) -> bool
    ensures { result ≡ needs a code }
{
    is_among(element_of(code).needed, a)
}

// A code up to which the action takes each one.
pub fn taken_up_to(a: Action) -> u8
    ensures { TakenUpTo a result }
{
    if actions::is_full(a) {
        return LAST_FULL;
    }
    LAST_SHORT
}
