// Numbers in decimal digits.
ghost use Rattle.std.specs.Prelude.{◌≡◌, ◌<◌, ◌≤◌, ◌+◌, ◌^◌, Some, None, length, true, nat_lt, IfSome, if◌then◌else◌};
ghost use Rattle.std.specs.List.{list_all};
ghost use Rattle.std.specs.Char.{is_ascii_digit};
ghost use Rattle.ec_script.specs.Numbers.{decimal_after, is_numeric, numeral, number, gfid, client, brick, mode, owner};
ghost use Rattle.ec_script.specs.Printed.{IsId, IsClient, IsBrick};

use ec_attr::Gfid;

fn are_digits(word: &[u8]) -> bool
    ensures { result ≡ list_all is_ascii_digit word.now }
{
    word.iter().all(|b| b.is_ascii_digit())
}

/// From one digit to this many.
fn is_numeric(most: usize, word: &[u8]) -> bool
    ensures { result ≡ is_numeric most word.now }
{
    1 <= word.len() && word.len() <= most && are_digits(word)
}

/// What up to 38 digits say.
fn decimal(word: &[u8]) -> u128
    requires short { length word.now ≤ 38 }
    requires digits { list_all is_ascii_digit word.now ≡ true }
    ensures { result ≡ decimal_after 0 word.now }
{
    let mut value = 0u128;
    for digit in word {
        value = value * 10 + u128::from(*digit - b'0');
    }
    value
}

/// What up to 39 digits say, where it is below 2^128.
fn value_of(word: &[u8]) -> Option<u128>
    requires short { length word.now ≤ 39 }
    requires digits { list_all is_ascii_digit word.now ≡ true }
    ensures { result ≡ (if nat_lt (decimal_after 0 word.now) (2 ^ 128) then Some (decimal_after 0 word.now) else None) }
{
    let [front @ .., last] = word else {
        return Some(0);
    };
    let tens = decimal(front);
    let digit = u128::from(*last - b'0');
    if tens <= (u128::MAX - digit) / 10 {
        Some(tens * 10 + digit)
    } else {
        None
    }
}

/// The number from `low` to `high` that a word of at most so many digits is.
#[tactic(auto, unfolding(crate::specs::Numbers::numeral))]
fn numeral(word: &[u8], most: usize, low: u128, high: u128) -> Option<u128>
    requires { most ≤ 39 }
    ensures value { result ≡ numeral most low high word.now }
    ensures range { IfSome result (λ n. (low ≤ n) × (n ≤ high)) }
{
    if !is_numeric(most, word) {
        return None;
    }
    let value = value_of(word)?;
    if low <= value && value <= high {
        Some(value)
    } else {
        None
    }
}

/// 1 to 20 digits, at most 2^64 - 1.
pub fn number(word: &[u8]) -> Option<u64>
    ensures { result ≡ number word.now }
{
    Some(numeral(word, 20, 0, u128::from(u64::MAX))? as u64)
}

/// 1 to 39 digits, from 1 to 2^128 - 1.
pub(crate) fn gfid(word: &[u8]) -> Option<Gfid>
    ensures value { result ≡ gfid word.now }
    ensures range { IfSome result IsId }
{
    Some(Gfid(numeral(word, 39, 1, u128::MAX)?))
}

/// From 1 to 16.
pub(crate) fn client(word: &[u8]) -> Option<u8>
    ensures value { result ≡ client word.now }
    ensures range { IfSome result IsClient }
{
    Some(numeral(word, 20, 1, 16)? as u8)
}

/// From 0 to 30.
pub(crate) fn brick(word: &[u8]) -> Option<u8>
    ensures value { result ≡ brick word.now }
    ensures range { IfSome result IsBrick }
{
    Some(numeral(word, 20, 0, 30)? as u8)
}

/// The permission bits of an attribute, at most 4095.
pub(crate) fn mode(word: &[u8]) -> Option<u32>
    ensures value { result ≡ mode word.now }
    ensures range { IfSome result (λ n. n ≤ 4095) }
{
    Some(numeral(word, 20, 0, 4095)? as u32)
}

/// The owner or the group of an attribute, at most 2^32 - 1.
pub(crate) fn owner(word: &[u8]) -> Option<u32>
    ensures { result ≡ owner word.now }
{
    Some(numeral(word, 20, 0, u128::from(u32::MAX))? as u32)
}
