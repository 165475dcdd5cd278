// Legal entity identifiers (ISO 17442).
ghost use Rattle.std.specs.Prelude.{◌≡◌, true, ◌<◌, ◌%◌};
ghost use Rattle.values.specs.Limits.{lei_modulus};
ghost use Rattle.values.specs.declared.run.Class.TheVariants.{CapitalOrDigit};
ghost use Rattle.values.specs.Run.{in_class, each_of};
ghost use Rattle.values.specs.Lei.{grow, spell, next_remainder, PrefixRemainder, is_lei};

use crate::limits::{LEI_BODY, LEI_CHECK, LEI_MODULUS};
use crate::run::{Class, run_of};

// A letter less this is its number: A is 10, Z is 35.
const LETTERS: u8 = b'A' - 10;

// A remainder read on by one capital or digit: a letter is two digits.
#[tactic(auto, unfolding(crate::specs::Lei::grow, crate::specs::Lei::weight, crate::specs::Lei::number))]
fn grow(r: u32, b: u8) -> u32
    requires { (r < lei_modulus) × (in_class CapitalOrDigit b ≡ true) }
    ensures { result ≡ grow r b }
{
    match b {
        b'0'..=b'9' => r * 10 + u32::from(b - b'0'),
        _ => r * 100 + u32::from(b - LETTERS),
    }
}

// The remainder after one capital or digit more.
#[tactic(auto, using(crate::proofs::LeiLaws::prefix_remainder))]
fn next_remainder(r: u32, b: u8) -> u32
    requires { (r < lei_modulus) × (in_class CapitalOrDigit b ≡ true) }
    ensures value { (result ≡ next_remainder r b) × (result < lei_modulus) }
    ensures prefix_remainder { PrefixRemainder }
{
    grow(r, b) % LEI_MODULUS
}

// The remainder of the whole number that capitals and digits spell, kept below the modulus after each of them.
#[tactic(auto, using(crate::proofs::LeiLaws::remainders), unfolding(crate::specs::Lei::running_remainder))]
fn remainder_of(v: &[u8]) -> u32
    requires { each_of CapitalOrDigit v.now ≡ true }
    ensures { result ≡ spell 0 v.now % lei_modulus }
{
    let mut r: u32 = 0;
    for b in v {
        r = next_remainder(r, *b);
    }
    r
}

#[tactic(auto, using(crate::proofs::LeiLaws::parts), unfolding(crate::specs::Lei::is_lei))]
pub fn is_lei(v: &[u8]) -> bool
    ensures { result ≡ is_lei v.now }
{
    let Some((body, check)) = v.split_at_checked(LEI_BODY) else {
        return false;
    };
    run_of(LEI_BODY, LEI_BODY, Class::CapitalOrDigit, body)
        && run_of(LEI_CHECK, LEI_CHECK, Class::Digit, check)
        && remainder_of(v) == 1
}
