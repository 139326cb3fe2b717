//! The number that a line says.
ghost use Rattle.std.specs.Prelude.{◌≡◌, ◌+◌, ◌*◌, ◌-◌, ◌^◌, min, true, if◌then◌else◌};
ghost use Rattle.std.specs.Char.{is_ascii_digit};
ghost use Rattle.std.specs.Str.{all_ascii_digits};
ghost use Rattle.intaglio_decode.specs.Parts.{value_in};
ghost use Rattle.intaglio_lines.specs.Fault.{is_number};

/// The decimal number on the line, if there is one, without sign and leading zeros.
///
/// For a number above `u64::MAX` it returns `u64::MAX`, which is the number of no string:
/// so many don't fit into memory.
pub fn number_of(line: &[u8]) -> Option<u64>
    ensures { result ≡ (if is_number line.now then Some (value_in line.now) else None) }
{
    match line {
        [] | [b'0', _, ..] => None,
        _ => value_of(line),
    }
}

// The number of these digits, if all bytes are digits.
#[tactic(auto, using(crate::proofs::Digits::more_digits, crate::proofs::Digits::more_value, crate::proofs::Digits::not_digits, crate::proofs::Digits::digits_all, std::proofs::lemmas::List::take_all))]
fn value_of(digits: &[u8]) -> Option<u64>
    ensures { result ≡ (if all_ascii_digits digits.now then Some (value_in digits.now) else None) }
{
    let mut value = 0u64;
    for digit in digits {
        if !digit.is_ascii_digit() {
            return None;
        }
        value = with_digit(value, *digit);
    }
    Some(value)
}

// The number of the digits so far and one more.
fn with_digit(value: u64, digit: u8) -> u64
    requires { is_ascii_digit digit ≡ true }
    ensures { result ≡ min (value * 10 + (digit - 48)) (2 ^ 64 - 1) }
{
    let tens = value.saturating_mul(10);
    tens.saturating_add(u64::from(digit - b'0'))
}
