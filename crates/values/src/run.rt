// Runs of characters of one class.
ghost use Rattle.std.specs.Prelude.{◌≡◌};
ghost use Rattle.std.specs.List.{list_all};
ghost use Rattle.values.specs.Run.{within, in_class, run_of, is_uti, is_event, is_package_identifier};

use crate::limits::{EVENT_SIZE, PACKAGE_MOST, UTI_LEAST, UTI_MOST};

// Bytes are looked at so many at a time.
const BLOCK: usize = 64;

#[derive(Clone, Copy, Debug, PartialEq, Eq)]
pub enum Class {
    Digit,
    Capital,
    CapitalOrDigit,
    LetterOrDigit,
}

pub fn is_within(lo: usize, hi: usize, n: usize) -> bool
    ensures { result ≡ within lo hi n }
{
    (lo..=hi).contains(&n)
}

pub fn in_class(class: Class, b: u8) -> bool
    ensures { result ≡ in_class class b }
{
    match class {
        Class::Digit => matches!(b, b'0'..=b'9'),
        Class::Capital => matches!(b, b'A'..=b'Z'),
        Class::CapitalOrDigit => matches!(b, b'A'..=b'Z' | b'0'..=b'9'),
        Class::LetterOrDigit => matches!(b, b'a'..=b'z' | b'A'..=b'Z' | b'0'..=b'9'),
    }
}

// Each of a few bytes is of the class.
// Stays: a fold and no `all`, which ends early: a UTI of 42 characters takes 560 instructions with `all`.
fn is_block(class: Class, v: &[u8]) -> bool
    ensures { result ≡ list_all (in_class class) v.now }
{
    v.iter().fold(true, |all, b| all & in_class(class, *b))
}

// Each byte is of the class: block by block, as far as the first that isn't.
#[tactic(auto, using(crate::proofs::RunLaws::blocks_each))]
fn is_each(class: Class, v: &[u8]) -> bool
    ensures { result ≡ list_all (in_class class) v.now }
{
    let (blocks, rest) = v.as_chunks::<BLOCK>();
    blocks.iter().all(
        |block: &[u8; BLOCK]| -> bool
            ensures { result ≡ list_all (in_class class) block.now }
        { is_block(class, block) },
    ) && is_block(class, rest)
}

// At least `least` and at most `most` bytes, each of the class.
#[tactic(auto, using(crate::proofs::RunLaws::run_where, crate::proofs::RunLaws::run_not))]
pub fn run_of(least: usize, most: usize, class: Class, v: &[u8]) -> bool
    ensures { result ≡ run_of least most class v.now }
{
    is_within(least, most, v.len()) && is_each(class, v)
}

pub fn is_uti(v: &[u8]) -> bool
    ensures { result ≡ is_uti v.now }
{
    run_of(UTI_LEAST, UTI_MOST, Class::CapitalOrDigit, v)
}

pub fn is_event(v: &[u8]) -> bool
    ensures { result ≡ is_event v.now }
{
    run_of(EVENT_SIZE, EVENT_SIZE, Class::Capital, v)
}

pub fn is_package_identifier(v: &[u8]) -> bool
    ensures { result ≡ is_package_identifier v.now }
{
    run_of(1, PACKAGE_MOST, Class::LetterOrDigit, v)
}
