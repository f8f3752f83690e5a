//! Numbers in decimal digits.

ghost use Rattle.std.specs.Prelude.{◌≡◌, ◌≤◌, ◌<◌, ◌^◌, true, length, IfSome};
ghost use Rattle.std.specs.Char.{is_ascii_digit};
ghost use Rattle.std.specs.List.{list_all};
ghost use Rattle.std.specs.Str.Parse.{digits_value};
ghost use Rattle.ss_text.specs.Numbers.{number_of};

/// Whether every byte is a decimal digit.
pub(crate) fn are_digits(text: &[u8]) -> bool
    ensures { result ≡ list_all is_ascii_digit text.now }
{
    text.iter().all(|digit| digit.is_ascii_digit())
}

/// The number that at most 18 digits write.
pub(crate) fn value_of(text: &[u8]) -> u64
    requires digits { list_all is_ascii_digit text.now ≡ true }
    requires few { length text.now ≤ 18 }
    ensures value { result ≡ digits_value 10 text.now }
    ensures small { result < 10 ^ length text.now }
{
    let mut number = 0u64;
    for digit in text {
        number = number * 10 + (*digit - b'0') as u64;
    }
    number
}

/// The number that 1 to `most` decimal digits write, with leading zeros or without; None where the text is anything else.
#[tactic(auto, unfolding(crate::specs::Numbers::number_of))]
pub fn read_number(text: &[u8], most: usize) -> Option<u64>
    requires { most ≤ 18 }
    ensures value { result ≡ number_of most text.now }
    ensures small { IfSome result (λ number. number < 10 ^ most) }
{
    if 1 <= text.len() && text.len() <= most && are_digits(text) {
        Some(value_of(text))
    } else {
        None
    }
}
