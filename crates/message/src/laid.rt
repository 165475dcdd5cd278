// A message whose layout is right, and a cursor that goes along its codes.
ghost use Rattle.std.specs.Prelude.{◌≡◌, ◌+◌, ◌-◌, ◌*◌, ◌<◌, ◌≤◌, length, true, IfSome};
ghost use Rattle.octets.specs.Part.{PartOf};
ghost use Rattle.message.specs.Values.{entries, value_at, offset_of, is_there};
ghost use Rattle.message.specs.Layout.{count_size, entry_size, offset_at};
ghost use Rattle.message.specs.Reading.{Laid, Reached, next_place, NoneAbove, Read};

use crate::entries::{end_of, entries_of, next_place};
use crate::layout::{CODE, COUNT, ENTRY, u16_at};

// A message whose layout is right, and the number of its entries.
#[derive(Clone, Copy)]
pub struct LaidMessage<'a> {
    pub src: &'a [u8],
    pub count: usize,
    pub ghost laid: { ∥ Laid src.now ∥₁ },
    pub ghost whole: { count ≡ entries src.now },
    pub ghost bound: { (count < 65536) × (entry_size * count ≤ length src.now - count_size) },
}

// The cursor of a message: the entry that it has come to.
#[derive(Clone, Copy)]
pub struct Cursor<'a> {
    pub message: LaidMessage<'a>,
    pub at: usize,
}

impl<'a> LaidMessage<'a> {
    // A message whose layout is right.
    pub fn new(m: &'a [u8]) -> LaidMessage<'a>
        requires { Laid m.now }
        ensures { result.src ≡ m.entry }
    {
        LaidMessage {
            src: m,
            count: entries_of(m),
        }
    }

    // The value of entry k: that part of the message itself.
    #[tactic(auto, using(crate::proofs::ReadingLaws::laid_runs), unfolding(crate::specs::Values::value_at))]
    pub fn value_here(self, k: usize) -> &'a [u8]
        requires { k < self.count }
        ensures { (result.now ≡ value_at self.entry.src.now k) × PartOf self.entry.src (offset_at self.entry.src.now k) result }
    {
        let offset = u16_at(self.src, COUNT + ENTRY * k + CODE);
        let end = end_of(self.src, self.count, k);
        &self.src[offset..end]
    }

    // Whether an element is there, for a reader that has come to its code.
    #[tactic(auto, using(crate::proofs::ReadingLaws::laid_entries, crate::proofs::ReadingLaws::not_past, crate::proofs::ReadingLaws::there_test))]
    pub fn is_here(self, code: u8, at: usize) -> bool
        requires { Reached self.src.now code at }
        ensures value { result ≡ is_there code self.entry.src.now }
        ensures inside { result ≡ true → at < self.entry.count }
    {
        at < self.count && u16_at(self.src, COUNT + ENTRY * at) == usize::from(code)
    }

    // The code of the last entry, 0 where there is none; codes rise.
    #[tactic(auto, using(crate::proofs::ReadingLaws::laid_entries, crate::proofs::ReadingLaws::none_there, crate::proofs::ReadingLaws::above_last))]
    pub fn last_code(self) -> usize
        ensures { NoneAbove self.entry.src.now result }
    {
        if self.count == 0 {
            return 0;
        }
        u16_at(self.src, COUNT + ENTRY * (self.count - 1))
    }

    // A cursor at the first entry, which has come to code 1.
    #[tactic(auto, using(crate::proofs::ReadingLaws::reached_start))]
    pub fn cursor(self) -> Cursor<'a>
        ensures message { result.message ≡ self.entry }
        ensures reached { Reached self.entry.src.now 1 result.at }
    {
        Cursor {
            message: self,
            at: 0,
        }
    }
}

impl<'a> Cursor<'a> {
    // The value of the element with the code that the cursor has come to, None where the element is missing; the cursor goes on to the next code.
    #[tactic(auto, using(crate::proofs::ReadingLaws::found_there, crate::proofs::ReadingLaws::offset_there))]
    pub fn value_of(&mut self, code: u8) -> Option<&'a [u8]>
        requires { Reached self.old.message.src.now code self.old.at }
        ensures message { self.new.message ≡ self.old.message }
        ensures place { self.new.at ≡ next_place self.old.at (is_there code self.old.message.src.now) }
        ensures reached { Reached self.old.message.src.now (code + 1) self.new.at }
        ensures value { Read self.old.message.src.now code result }
        ensures part { IfSome result (λ v. PartOf self.old.message.src (offset_of code self.old.message.src.now) v) }
    {
        if !self.message.is_here(code, self.at) {
            return None;
        }
        let value = self.message.value_here(self.at);
        self.at = next_place(self.at, true);
        Some(value)
    }
}
