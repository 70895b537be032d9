//! Numbers in decimal digits, as vendor classes, requests and options have them.
ghost use Rattle.std.specs.{Prelude.{◌≡◌, ◌≤◌, true, length}, List.list_all, Char.is_ascii_digit};
ghost use Rattle.pxe_vendor.specs.Digits.{decimal_value, is_numeral, numeral};

/// Whether all octets are decimal digits.
pub fn are_digits(text: &[u8]) -> bool
    ensures { result ≡ list_all is_ascii_digit text.now }
{
    text.iter().all(|octet| octet.is_ascii_digit())
}

/// The number that decimal digits write.
pub fn decimal(text: &[u8]) -> u64
    requires short { length text.now ≤ 18 }
    requires digits { list_all is_ascii_digit text.now ≡ true }
    ensures { result ≡ decimal_value text.now }
{
    let mut n = 0;
    for digit in text {
        n = n * 10 + u64::from(*digit - b'0');
    }
    n
}

fn is_numeral(text: &[u8]) -> bool
    ensures { result ≡ is_numeral text.now }
{
    1 <= text.len() && text.len() <= 16 && are_digits(text) && (text.len() == 1 || text[0] != b'0')
}

/// The number that 1 to 16 decimal digits write, without a leading zero but in `0`.
pub fn numeral(text: &[u8]) -> Option<u64>
    ensures { result ≡ numeral text.now }
{
    if is_numeral(text) {
        Some(decimal(text))
    } else {
        None
    }
}
