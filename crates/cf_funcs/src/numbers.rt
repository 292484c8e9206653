ghost use Rattle.std.specs.Prelude.{◌≡◌, ◌<◌, ◌≤◌, ◌^◌, IfSome, length};
ghost use Rattle.std.specs.Char.{is_ascii_digit};
ghost use Rattle.std.specs.List.{list_all};
ghost use Rattle.cf_funcs.specs.Number.{are_digits, digits_of, fraction_of, number_of, size_of};

use crate::cuts::cut;

/// The number that a text writes, in 10^-9, without taking memory.
///
/// A number text is an optional `-`, then 1 to 18 digits, and optionally `.` with 1 to 9 digits. `None` says that the text is no number text.
pub fn number(text: &str) -> Option<i128>
    ensures { result ≡ number_of text.now }
{
    match text.strip_prefix('-') {
        Some(size) => Some(-(size_from(size)? as i128)),
        None => Some(size_from(text)? as i128),
    }
}

// The digits before the point count in whole numbers, those behind it in parts.
fn size_from(text: &str) -> Option<u128>
    ensures size { result ≡ size_of text.now }
    ensures bound { IfSome result (λ n. n < 2 ^ 127) }
{
    match cut(text, ".") {
        Some((whole, fraction)) => {
            let whole = digits(whole, 18)?;
            let parts = fraction_from(fraction)?;
            Some(whole as u128 * 1_000_000_000 + parts as u128)
        }
        None => Some(digits(text, 18)? as u128 * 1_000_000_000),
    }
}

// The first digit behind the point counts 10^8.
fn fraction_from(text: &str) -> Option<u64>
    ensures { result ≡ fraction_of text.now }
{
    let parts = digits(text, 9)?;
    Some(parts * 10_u64.pow(9 - text.len() as u32))
}

// What 1 to `most` digits write.
fn digits(text: &str, most: usize) -> Option<u64>
    requires { most ≤ 18 }
    ensures value { result ≡ digits_of most text.now }
    ensures bound { IfSome result (λ n. n < 10 ^ length text.now) }
    ensures length { IfSome result (λ n. length text.now ≤ most) }
{
    if are_digits(text, most) {
        text.parse::<u64>().ok()
    } else {
        None
    }
}

fn are_digits(text: &str, most: usize) -> bool
    ensures { result ≡ are_digits most text.now }
{
    !text.is_empty() && text.len() <= most && all_digits(text.as_bytes())
}

fn all_digits(bytes: &[u8]) -> bool
    ensures { result ≡ list_all is_ascii_digit bytes.now }
{
    bytes.iter().all(|byte| byte.is_ascii_digit())
}
