// The form of each element.
ghost use Rattle.std.specs.Prelude.{◌≡◌};
ghost use Rattle.elements.specs.Forms.{is_read, fits, has_form};
ghost use Rattle.actions.specs.Actions.{action_of};

use crate::table::{Form, element_of};

// Whether the value is one of the seven actions.
fn is_action(v: &[u8]) -> bool
    ensures { result ≡ is_read (action_of v.now) }
{
    actions::read_action(v).is_ok()
}

fn fits_form(form: Form, v: &[u8]) -> bool
    ensures { result ≡ fits form v.now }
{
    match form {
        Form::Unknown => false,
        Form::Uti => values::is_uti(v),
        Form::Action => is_action(v),
        Form::Event => values::is_event(v),
        Form::Time => dates::is_time(v),
        Form::Date => dates::is_date(v),
        Form::Cleared => values::is_cleared(v),
        Form::Truth => values::is_truth(v),
        Form::Allocation => values::is_allocation(v),
        Form::PackageIdentifier => values::is_package_identifier(v),
        Form::Price => numbers::is_price(v),
        Form::PriceNotation => values::is_price_notation(v),
        Form::SpreadNotation => values::is_spread_notation(v),
        Form::Currency => iso::is_currency(v),
        Form::Notional => numbers::is_notional(v),
        Form::Location => iso::is_location(v),
        Form::Lei => values::is_lei(v),
        Form::AssetClass => values::is_asset_class(v),
    }
}

// Whether a value has the form of the element with a code.
#[tactic(auto, unfolding(crate::specs::Forms::has_form))]
pub fn has_form(code: u8, v: &[u8]) -> bool
    ensures { result ≡ has_form code v.now }
{
    fits_form(element_of(code).form, v)
}
