// Decimal numbers of 32 bits.
#![tactic(auto)]

ghost use Rattle.std.specs.Prelude.{◌≡◌};
ghost use Rattle.decimals.specs.Decimal.{decimal_of};

// The decimal number that a text is; it has one digit or more, and 32 bits.
pub fn number_of(text: &[u8]) -> Option<u32>
    ensures { result ≡ decimal_of text.now }
{
    if text.is_empty() {
        return None;
    }
    let mut value: u32 = 0;
    for c in text {
        let digit = char::from(*c).to_digit(10)?;
        value = value.checked_mul(10)?.checked_add(digit)?;
    }
    Some(value)
}
