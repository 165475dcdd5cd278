// A message: its layout, and the value of an element as that part of the message itself. Specification, section 2.
#![tactic(auto)]

mod entries;
mod laid;
mod layout;

ghost use Rattle.std.specs.Prelude.{◌≡◌};
ghost use Rattle.octets.specs.Part.{PartOf};
ghost use Rattle.message.specs.Layout.{offset_at};
ghost use Rattle.message.specs.Values.{entry_from, value_at, offset_of, value};

pub use entries::{entries_of, next_place};
use entries::{entry_of, value_at};
pub use laid::{Cursor, LaidMessage};
pub use layout::layout_right;

// The reader of a message: the lent bytes, and how far it has come, an entry of the header. Each function over it takes it apart and
// calls one on the bytes and a number.
#[derive(Clone, Copy, Debug, PartialEq, Eq)]
pub struct Reader<'a> {
    pub src: &'a [u8],
    pub at: usize,
}

// A reader at the first entry of a message.
pub fn start<'a>(m: &'a [u8]) -> Reader<'a>
    ensures { (result.src ≡ m.entry) × (result.at ≡ 0) }
{
    Reader { src: m, at: 0 }
}

impl<'a> Reader<'a> {
    // The reader where it has come to the next entry with a code; past the last entry where there is none.
    pub fn seek(self, code: u8) -> Reader<'a>
        ensures { (result.src ≡ self.entry.src) × (result.at ≡ entry_from self.entry.src.now code self.entry.at) }
    {
        Reader {
            at: entry_of(self.src, code, self.at),
            ..self
        }
    }

    // The value of the entry that the reader has come to: that part of the message itself.
    pub fn value(self) -> &'a [u8]
        ensures { (result.now ≡ value_at self.entry.src.now self.entry.at)
            × PartOf self.entry.src (offset_at self.entry.src.now self.entry.at) result }
    {
        value_at(self.src, self.at)
    }
}

// The value of the element with a code: that part of the message itself, empty where the element is missing.
#[tactic(auto, unfolding(crate::specs::Values::value, crate::specs::Values::offset_of))]
pub fn element<'a>(m: &'a [u8], code: u8) -> &'a [u8]
    ensures { (result.now ≡ value code m.now) × PartOf m.entry (offset_of code m.now) result }
{
    start(m).seek(code).value()
}
