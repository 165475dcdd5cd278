// A row of the ledger, and what it says.
ghost use Rattle.std.specs.Prelude.{◌≡◌, ◌+◌, ◌≤◌, length};
ghost use Rattle.ledger.specs.Layout.{row_start};
ghost use Rattle.ledger.specs.Rows.{row_at, status_of, identifier_of, stored_terms, stored_time, uti_length, holds_uti};

use crate::layout::{
    HEADER_SIZE, IDENTIFIER_AT, LENGTH_AT, ROW_SIZE, STATUS_AT, TERMS_AT, U64, UTI_AT,
};
use octets::{part_of, read_at, same_long};
use terms::{SIZE, TIME_SIZE};

// The bytes of a row: a part of the ledger itself.
#[derive(Clone, Copy, Debug)]
pub struct Row<'a> {
    pub bytes: &'a [u8; ROW_SIZE],
}

// The row at a place.
pub fn row_at<'a>(l: &'a [u8], k: usize) -> Row<'a>
    requires { row_start (k + 1) ≤ length l.now }
    ensures { result.bytes.now ≡ row_at l.now k }
{
    let start = HEADER_SIZE + k * ROW_SIZE;
    let end = start + ROW_SIZE;
    Row {
        bytes: l[start..end].as_array().unwrap(),
    }
}

impl<'a> Row<'a> {
    // The status of its swap.
    #[tactic(auto, unfolding(crate::specs::Rows::status_of))]
    pub fn status(self) -> u8
        ensures { result ≡ status_of self.entry.bytes.now }
    {
        self.bytes[STATUS_AT]
    }

    // The swap's last identifier.
    #[tactic(auto, unfolding(crate::specs::Rows::identifier_of))]
    pub fn identifier(self) -> u64
        ensures { result ≡ identifier_of self.entry.bytes.now }
    {
        let bytes = self.bytes;
        read_at(bytes, IDENTIFIER_AT, U64)
    }

    // The masked terms.
    #[tactic(auto, unfolding(crate::specs::Rows::stored_terms))]
    pub fn terms(self) -> &'a [u8]
        ensures { result.now ≡ stored_terms self.entry.bytes.now }
    {
        let bytes = self.bytes;
        part_of(bytes, TERMS_AT, SIZE)
    }

    // The execution time.
    #[tactic(auto, unfolding(crate::specs::Rows::stored_time))]
    pub fn time(self) -> &'a [u8]
        ensures { result.now ≡ stored_time self.entry.bytes.now }
    {
        let bytes = self.bytes;
        part_of(bytes, TERMS_AT, TIME_SIZE)
    }

    // The length of its UTI.
    fn uti_length(self) -> usize
        ensures { result ≡ uti_length self.entry.bytes.now }
    {
        self.bytes[LENGTH_AT] as usize
    }

    // Whether it holds the UTI. The length is compared first: a row of another length is passed over at once.
    #[tactic(auto, unfolding(crate::specs::Rows::holds_uti))]
    pub fn has_uti(self, uti: &[u8]) -> bool
        ensures { result ≡ holds_uti uti.now self.entry.bytes.now }
    {
        let bytes = self.bytes;
        self.uti_length() == uti.len() && same_long(part_of(bytes, UTI_AT, uti.len()), uti)
    }
}
