// The layout of a message (specification, section 2): its header of counts and offsets.
ghost use Rattle.std.specs.Prelude.{◌≡◌, false, ◌+◌, ◌*◌, ◌<◌, ◌≤◌, length, get_or};
ghost use Rattle.message.specs.Layout.{count_size, entry_size, u16_at, entry_right, layout_right};
ghost use Rattle.message.specs.Laws.{LayoutLaws};

// Sizes of the header's parts.
pub const COUNT: usize = 2;

pub const CODE: usize = 2;

pub const ENTRY: usize = 4;

// The two bytes from `at` on, which stand inside the message, as a number.
pub fn u16_at(m: &[u8], at: usize) -> usize
    requires { at + 2 ≤ length m.now }
    ensures { (result ≡ u16_at m.now at) × (result < 65536) }
{
    usize::from(u16::from_le_bytes([m[at], m[at + 1]]))
}

// Whether a table of known codes has a code.
fn knows(known: &[bool], code: usize) -> bool
    ensures { result ≡ get_or known.now code false }
{
    known.get(code).copied().unwrap_or(false)
}

// Whether entry k, which stands whole in the message, is right.
#[tactic(auto, unfolding(crate::specs::Layout::entry_right))]
fn entry_right(m: &[u8], known: &[bool], k: usize) -> bool
    requires { (k < 65536) × (count_size + entry_size * (k + 1) ≤ length m.now) }
    ensures { result ≡ entry_right known.now m.now k }
{
    let code = u16_at(m, COUNT + ENTRY * k);
    let offset = u16_at(m, COUNT + ENTRY * k + CODE);
    knows(known, code)
        && offset < m.len()
        && if k == 0 {
            offset == COUNT + ENTRY * u16_at(m, 0)
        } else {
            u16_at(m, COUNT + ENTRY * (k - 1)) < code
                && u16_at(m, COUNT + ENTRY * (k - 1) + CODE) < offset
        }
}

// Whether the layout is right: at most `longest` bytes, at most `most` entries, each of them right.
// Stays: returns and a `for`: with `(0..n).all(..)` the proof did not close, since `all` over a range of numbers is not tied to the list.
#[tactic(auto, using(crate::proofs::LayoutLaws::layout_laws, crate::proofs::LayoutLaws::layout_steps), unfolding(crate::specs::Layout::layout_right))]
pub fn layout_right(m: &[u8], longest: usize, most: usize, known: &[bool]) -> bool
    ensures value { result ≡ layout_right longest most known.now m.now }
    ensures layout_laws { LayoutLaws }
{
    if m.len() < COUNT || longest < m.len() {
        return false;
    }
    let n = u16_at(m, 0);
    if most < n {
        return false;
    }
    if n == 0 {
        return m.len() == COUNT;
    }
    if m.len() <= COUNT + ENTRY * n {
        return false;
    }
    for k in 0..n {
        if !entry_right(m, known, k) {
            return false;
        }
    }
    true
}
