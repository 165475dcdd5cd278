// The entries of a message's header, and their values: plain functions on the bytes and a place, under the reader.
ghost use Rattle.std.specs.Prelude.{◌≡◌, ◌+◌, ◌-◌, ◌*◌, ◌<◌, ◌≤◌, length};
ghost use Rattle.octets.specs.Part.{PartOf};
ghost use Rattle.message.specs.Values.{entries, entry_from, end_of, value_at};
ghost use Rattle.message.specs.Layout.{count_size, entry_size, offset_at};
ghost use Rattle.message.specs.Reading.{next_place};

use crate::layout::{CODE, COUNT, ENTRY, u16_at};
use octets::part_of;

// The entries that stand whole in the message.
#[tactic(auto, unfolding(crate::specs::Values::entries))]
pub fn entries_of(m: &[u8]) -> usize
    ensures { (result ≡ entries m.now) × (result < 65536) × (entry_size * result ≤ length m.now - count_size) }
{
    if m.len() < COUNT {
        return 0;
    }
    let n = u16_at(m, 0);
    let room = (m.len() - COUNT) / ENTRY;
    n.min(room)
}

// The first entry from `from` on with a code; where there is none the number of entries, or `from` if that is past it.
// Stays: a place and no Option: it is where the reader stands, and the definition `entry_from` answers a place too.
#[tactic(auto, using(crate::proofs::LayoutLaws::entry_steps))]
pub fn entry_of(m: &[u8], code: u8, from: usize) -> usize
    ensures { result ≡ entry_from m.now code from }
{
    let n = entries_of(m);
    for k in from..n {
        if u16_at(m, COUNT + ENTRY * k) == usize::from(code) {
            return k;
        }
    }
    n.max(from)
}

// Where the value of entry k, one of n, ends.
#[tactic(auto, unfolding(crate::specs::Values::end_of))]
pub fn end_of(m: &[u8], n: usize, k: usize) -> usize
    requires n_value { n ≡ entries m.now }
    requires n_bound { (n < 65536) × (entry_size * n ≤ length m.now - count_size) }
    requires k_lt_n { k < n }
    ensures { result ≡ end_of m.now k }
{
    if k + 1 < n {
        return u16_at(m, COUNT + ENTRY * (k + 1) + CODE);
    }
    m.len()
}

// The value of entry k: that part of the message itself, empty where there is no such entry.
#[tactic(auto, unfolding(crate::specs::Values::value_at))]
pub fn value_at<'a>(m: &'a [u8], k: usize) -> &'a [u8]
    ensures { (result.now ≡ value_at m.now k) × PartOf m.entry (offset_at m.now k) result }
{
    let n = entries_of(m);
    if n <= k {
        return &m[..0];
    }
    let offset = u16_at(m, COUNT + ENTRY * k + CODE);
    let end = end_of(m, n, k);
    part_of(m, offset, end.saturating_sub(offset))
}

// How far the reader has come where it goes on from an element that is there or not.
pub fn next_place(at: usize, here: bool) -> usize
    requires { at < 65536 }
    ensures { (result ≡ next_place at here) × (result ≤ at + 1) }
{
    at + usize::from(here)
}
