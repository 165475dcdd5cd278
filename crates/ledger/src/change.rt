// What an accepted message changes of its swap's row, and what its line shows.
ghost use Rattle.std.specs.Prelude.{◌≡◌, ◌≤◌, length};
ghost use Rattle.terms.specs.Terms.{terms_size};
ghost use Rattle.ledger.specs.Layout.{uti_size};

use actions::Action;

// What is written of the row: the message's action, whether a line is due, the swap's status after it, its UTI, the identifier that a line
// takes, and the masked terms that a line shows.
// Stays: due beside the identifier, no Option: rule 18 and the definitions `row_after` and `header_after` take the two apart.
// Stays: terms as a slice of their length, here and in Line, no array: `store_row` and `write_line` ask a caller for no other type.
// Stays: the status is the row's byte, a number: `store_row` writes any.
#[derive(Clone, Copy, Debug)]
pub struct Change<'a> {
    pub action: Action,
    pub due: bool,
    pub status: u8,
    pub uti: &'a [u8],
    pub identifier: u64,
    pub terms: &'a [u8],
    pub ghost uti_fits: { length uti.now ≤ uti_size },
    pub ghost whole_terms: { length terms.now ≡ terms_size },
}

// What the tape line shows: the message's action, the identifier that the line takes, the swap's previous one, the message, and its masked terms.
#[derive(Clone, Copy, Debug)]
pub struct Line<'a> {
    pub action: Action,
    pub identifier: u64,
    pub previous: u64,
    pub message: &'a [u8],
    pub terms: &'a [u8],
    pub ghost terms_whole: { length terms.now ≡ terms_size },
}
