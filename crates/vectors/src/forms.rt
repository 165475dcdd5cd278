// The forms of values, by their words.
use repository::LONGEST_MESSAGE;

// Whether a value has the form that a word names, where it names one.
pub fn has_form(word: &[u8], v: &[u8]) -> Option<bool> {
    let is_right = match word {
        b"uti" => values::is_uti(v),
        b"event" => values::is_event(v),
        b"package" => values::is_package_identifier(v),
        b"currency" => iso::is_currency(v),
        b"location" => iso::is_location(v),
        b"truth" => values::is_truth(v),
        b"cleared" => values::is_cleared(v),
        b"allocation" => values::is_allocation(v),
        b"notation" => values::is_price_notation(v),
        b"spread-notation" => values::is_spread_notation(v),
        b"class" => values::is_asset_class(v),
        b"lei" => values::is_lei(v),
        b"price" => numbers::is_price(v),
        b"notional" => numbers::is_notional(v),
        b"date" => dates::is_date(v),
        b"time" => dates::is_time(v),
        b"action" => actions::read_action(v).is_ok(),
        b"layout" => elements::has_layout(v, LONGEST_MESSAGE),
        _ => return None,
    };
    Some(is_right)
}
