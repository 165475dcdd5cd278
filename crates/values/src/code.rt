// Values that are one of a few codes.
ghost use Rattle.std.specs.Prelude.{◌≡◌};
ghost use Rattle.octets.specs.Same.{same_bytes};
ghost use Rattle.values.specs.Code.{is_true, is_false, is_truth, is_cleared, is_allocation, is_price_notation, is_spread_notation, is_asset_class};

use octets::{has_code, same};

// The value is a code of four bytes.
pub fn is_code(v: &[u8], code: &[u8; 4]) -> bool
    ensures { result ≡ same_bytes v.now code.now }
{
    same(v, code)
}

#[tactic(auto, unfolding(octets::specs::Text::text, crate::specs::Code::is_true))]
pub fn is_true(v: &[u8]) -> bool
    ensures { result ≡ is_true v.now }
{
    same(v, b"True") || same(v, b"true")
}

#[tactic(auto, unfolding(octets::specs::Text::text, crate::specs::Code::is_false))]
fn is_false(v: &[u8]) -> bool
    ensures { result ≡ is_false v.now }
{
    same(v, b"False") || same(v, b"false")
}

#[tactic(auto, unfolding(crate::specs::Code::is_truth))]
pub fn is_truth(v: &[u8]) -> bool
    ensures { result ≡ is_truth v.now }
{
    is_true(v) || is_false(v)
}

pub fn is_cleared(v: &[u8]) -> bool
    ensures { result ≡ is_cleared v.now }
{
    has_code(v, &[*b"Y", *b"N", *b"I"])
}

#[tactic(auto, unfolding(octets::specs::Text::text, crate::specs::Code::is_allocation))]
pub fn is_allocation(v: &[u8]) -> bool
    ensures { result ≡ is_allocation v.now }
{
    is_code(v, b"POST") || is_code(v, b"PREA") || is_code(v, b"UNAL")
}

pub fn is_price_notation(v: &[u8]) -> bool
    ensures { result ≡ is_price_notation v.now }
{
    has_code(v, &[*b"1", *b"3"])
}

pub fn is_spread_notation(v: &[u8]) -> bool
    ensures { result ≡ is_spread_notation v.now }
{
    has_code(v, &[*b"1", *b"3", *b"4"])
}

pub fn is_asset_class(v: &[u8]) -> bool
    ensures { result ≡ is_asset_class v.now }
{
    has_code(v, &[*b"CR", *b"IR", *b"FX", *b"EQ", *b"CO"])
}
