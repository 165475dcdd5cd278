// The table of the elements: a row for each code, as specs/Table.antt has them.
ghost use Rattle.std.specs.Prelude.{◌≡◌};
ghost use Rattle.elements.specs.Table.{row, element_of};

use Condition::*;
use Form::*;
use Kinds::*;
use Public::*;

#[derive(Clone, Copy, Debug, PartialEq, Eq)]
pub enum Form {
    Unknown,
    Uti,
    Action,
    Event,
    Time,
    Date,
    Cleared,
    Truth,
    Allocation,
    PackageIdentifier,
    Price,
    PriceNotation,
    SpreadNotation,
    Currency,
    Notional,
    Location,
    Lei,
    AssetClass,
}

// Kinds of messages.
#[derive(Clone, Copy, Debug, PartialEq, Eq)]
pub enum Kinds {
    None,
    All,
    Full,
}

#[derive(Clone, Copy, Debug, PartialEq, Eq)]
pub enum Condition {
    Never,
    Always,
    ClearedIsN,
    Package,
    NoSpread,
    HasPrice,
    MonetaryPrice,
    HasSpread,
    MonetarySpread,
}

#[derive(Clone, Copy, Debug, PartialEq, Eq)]
pub enum Public {
    Hidden,
    Masked,
    Shown,
}

// What the table says of an element: the form of its value, the messages that take it and those that need it, when it is due beside
// that, when it is shown, and whether it is public.
#[derive(Clone, Copy, Debug, PartialEq, Eq)]
pub struct Element {
    pub form: Form,
    pub taken: Kinds,
    pub needed: Kinds,
    pub due: Condition,
    pub shown: Condition,
    pub public: Public,
}

// The last code of the table.
pub const LAST_CODE: u8 = 28;

// Full messages take each code up to the first, other ones up to the second.
pub const LAST_FULL: u8 = LAST_CODE;

pub const LAST_SHORT: u8 = 5;

// How many codes the table has.
pub const MOST_ENTRIES: usize = LAST_CODE as usize;

// A row, in the order of the columns.
// Stays: as a struct literal with named fields a row takes eight lines, and the table is no longer seen at one look.
fn row(
    form: Form,
    taken: Kinds,
    needed: Kinds,
    due: Condition,
    shown: Condition,
    public: Public,
) -> Element
    ensures { result ≡ row form taken needed due shown public }
{
    Element {
        form,
        taken,
        needed,
        due,
        shown,
        public,
    }
}

// The element with a code.
#[tactic(auto, unfolding(crate::specs::Table::element_of))]
pub fn element_of(code: u8) -> Element
    ensures { result ≡ element_of code }
{
    match code {
        1 => row(Uti, All, All, Never, Never, Hidden), // UTI
        2 => row(Action, All, All, Never, Always, Shown), // action type
        3 => row(Event, All, None, Never, Always, Shown), // event type, needed by pair
        4 => row(Time, All, All, Never, Always, Shown), // event timestamp
        5 => row(Time, All, All, Never, Never, Hidden), // reporting timestamp
        6 => row(Time, Full, Full, Never, Always, Shown), // execution timestamp
        7 => row(Date, Full, Full, Never, Always, Shown), // effective date
        8 => row(Date, Full, Full, Never, Always, Shown), // expiration date
        9 => row(Date, Full, Full, Never, Never, Hidden), // final contractual settlement date
        10 => row(Cleared, Full, Full, Never, Always, Shown), // cleared
        11 => row(Truth, Full, None, ClearedIsN, ClearedIsN, Shown), // non-standardized term
        12 => row(Truth, Full, Full, Never, Always, Shown), // block election
        13 => row(Truth, Full, Full, Never, Always, Shown), // large notional election
        14 => row(Allocation, Full, Full, Never, Never, Hidden), // allocation
        15 => row(Truth, Full, Full, Never, Always, Shown), // package indicator
        16 => row(PackageIdentifier, Full, None, Package, Never, Hidden), // package identifier
        17 => row(Price, Full, None, NoSpread, Package, Shown), // package price
        18 => row(PriceNotation, Full, None, HasPrice, HasPrice, Shown), // price notation
        19 => row(Currency, Full, None, MonetaryPrice, MonetaryPrice, Shown), // price currency
        20 => row(Notional, Full, Full, Never, Always, Masked), // notional amount
        21 => row(Currency, Full, Full, Never, Always, Shown), // notional currency
        22 => row(Location, Full, None, Never, Always, Shown), // settlement location
        23 => row(Lei, Full, Full, Never, Never, Hidden), // counterparty 1
        24 => row(Lei, Full, Full, Never, Never, Hidden), // counterparty 2
        25 => row(AssetClass, Full, Full, Never, Always, Shown), // asset class
        26 => row(Price, Full, None, Never, Package, Shown), // package spread
        27 => row(SpreadNotation, Full, None, HasSpread, HasSpread, Shown), // spread notation
        28 => row(Currency, Full, None, MonetarySpread, MonetarySpread, Shown), // spread currency
        _ => row(Unknown, None, None, Never, Never, Hidden),
    }
}
