// The masked notional (specification, section 6): the exact amount of a value, rounded by its band and capped.
#![tactic(auto)]

ghost use Rattle.std.specs.Prelude.{◌≡◌, ℕ, ◌+◌, ◌*◌, ◌<◌, ◌≤◌, min};
ghost use Rattle.numbers.specs.Numbers.{whole_of};
ghost use Rattle.notional.specs.Amount.{unit, digit, spelled, fraction, amount};
ghost use Rattle.notional.specs.Rounding.{step, least_shown, last_step, rounded};
ghost use Rattle.notional.specs.Masking.{over, shown, largest_cap, is_cap};
ghost use Rattle.notional.specs.Laws.{MaskingLaws};

use numbers::{NOTIONAL_DECIMALS, decimals_of, whole_of};
use octets::byte_at;

// Units of 10^-5 in half a unit of the notional currency.
const HALF_UNIT: u64 = 50_000;

const LEAST_SHOWN: u64 = 5;

const SMALLEST_CAP: u64 = 1_000;

pub const LARGEST_CAP: u64 = 1_000_000_000_000_000;

// The number of a digit; what is no digit counts 0.
#[tactic(auto, unfolding(crate::specs::Amount::digit))]
fn digit_of(b: u8) -> u64
    ensures { (result ≡ digit b) × (result ≤ 9) }
{
    match b {
        b'0'..=b'9' => u64::from(b - b'0'),
        _ => 0,
    }
}

// Whole units stop growing just above the largest cap.
fn saturated(n: u64) -> u64
    ensures { result ≡ min n (largest_cap + 1) }
{
    n.min(LARGEST_CAP + 1)
}

// The whole units of a value.
#[tactic(auto, unfolding(crate::specs::Amount::spelled), using(crate::proofs::AmountLaws::spelled_more))]
fn whole_units(v: &[u8]) -> u64
    ensures { result ≡ min (spelled 0 (whole_of v.now)) (largest_cap + 1) }
{
    let mut n: u64 = 0;
    for b in whole_of(v) {
        n = saturated(n * 10 + digit_of(*b));
    }
    n
}

// What stands after the point, in units of 10^-5.
#[tactic(auto, unfolding(crate::specs::Amount::spelled, crate::specs::Amount::fraction), using(crate::proofs::AmountLaws::spelled_more))]
fn fraction_of(v: &[u8]) -> u64
    ensures { (result ≡ fraction v.now) × (result < unit) }
{
    let d = decimals_of(v);
    let mut n: u64 = 0;
    for k in 0..NOTIONAL_DECIMALS {
        n = n * 10 + digit_of(byte_at(d, k));
    }
    n
}

// The rounding step of the band that an amount of so many whole units lies in.
#[tactic(auto, unfolding(crate::specs::Rounding::step, crate::specs::Rounding::step_in, crate::specs::Rounding::bands))]
fn step_of(whole: u64) -> u64
    ensures { ((f : ℕ) → f < unit → result ≡ step (whole * unit + f)) × (least_shown ≤ result) × (result ≤ last_step) }
{
    match whole {
        0..=999 => 5,
        1_000..=9_999 => 100,
        10_000..=99_999 => 1_000,
        100_000..=999_999 => 10_000,
        1_000_000..=99_999_999 => 1_000_000,
        100_000_000..=499_999_999 => 10_000_000,
        500_000_000..=999_999_999 => 50_000_000,
        1_000_000_000..=99_999_999_999 => 1_000_000_000,
        _ => 50_000_000_000,
    }
}

// An exact amount: whole units, which stop growing just above the largest cap, and units of 10^-5. Its derived order is that of the amounts.
#[derive(Clone, Copy, PartialEq, Eq, PartialOrd, Ord)]
struct Exact {
    whole: u64,
    fraction: u64,
    ghost whole_bound: { whole ≤ largest_cap + 1 },
    ghost below_unit: { fraction < unit },
}

impl Exact {
    fn of(v: &[u8]) -> Exact
        ensures whole { result.whole ≡ min (spelled 0 (whole_of v.now)) (largest_cap + 1) }
        ensures fraction { result.fraction ≡ fraction v.now }
    {
        Exact {
            whole: whole_units(v),
            fraction: fraction_of(v),
        }
    }

    fn of_cap(cap: u64) -> Exact
        requires { cap ≤ largest_cap }
        ensures { (result.whole ≡ cap) × (result.fraction ≡ 0) }
    {
        Exact {
            whole: cap,
            fraction: 0,
        }
    }

    // The rounded amount, counted in halves of a unit.
    #[tactic(auto, unfolding(crate::specs::Rounding::rounded), using(crate::proofs::RoundingLaws::nearest_by_halves))]
    fn rounded(self) -> u64
        ensures { result ≡ rounded (self.whole * unit + self.fraction) }
    {
        let s = step_of(self.whole);
        let n = (2 * self.whole + self.fraction / HALF_UNIT + s) / (2 * s) * s;
        n.max(LEAST_SHOWN)
    }

    // Whether the exact amount is above the cap, which may be larger than an Exact holds.
    #[tactic(auto, unfolding(crate::specs::Masking::over))]
    fn is_over(self, cap: u64) -> bool
        ensures { result ≡ over cap (self.whole * unit + self.fraction) }
    {
        (cap, 0) < (self.whole, self.fraction)
    }
}

// What a tape line shows of a notional: whole units, and whether a plus sign follows.
// Stays: no Option: the plus is a mark beside the units, which are always there.
#[derive(Clone, Copy, Debug, PartialEq, Eq)]
pub struct Masked {
    pub units: u64,
    pub plus: bool,
}

// The masked notional of a value under a cap.
// Stays: a cap is a number with its bound asked for: the ledger has it as a number, and functions above hand it on as it is.
#[tactic(auto, unfolding(crate::specs::Amount::amount, crate::specs::Masking::over, crate::specs::Masking::shown), using(crate::proofs::MaskingLaws::masking_laws))]
pub fn mask(v: &[u8], cap: u64) -> Masked
    requires { cap ≤ largest_cap }
    ensures units_value { (result.units ≡ shown cap (amount v.now)) × (result.plus ≡ over cap (amount v.now)) }
    ensures masking_laws { MaskingLaws }
{
    let exact = Exact::of(v);
    let plus = exact.is_over(cap);
    let units = if plus { cap } else { exact.rounded() };
    Masked { units, plus }
}

// Whether a number is a cap: in its range, and its own rounded amount.
#[tactic(auto, unfolding(crate::specs::Masking::is_cap))]
pub fn is_cap(cap: u64) -> bool
    ensures { result ≡ is_cap cap }
{
    (SMALLEST_CAP..=LARGEST_CAP).contains(&cap) && Exact::of_cap(cap).rounded() == cap
}
