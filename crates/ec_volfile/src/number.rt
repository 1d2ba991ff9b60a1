// Numbers in decimal digits.
ghost use Rattle.std.specs.Prelude.{◌≡◌, true};
ghost use Rattle.std.specs.List.{list_all};
ghost use Rattle.std.specs.Char.{is_ascii_digit};
ghost use Rattle.ec_volfile.specs.Numbers.{decimal_after, is_numeric, number_of};

fn all_digits(word: &[u8]) -> bool
    ensures { result ≡ list_all is_ascii_digit word.now }
{
    word.iter().all(|b| b.is_ascii_digit())
}

/// From 1 to 10 decimal digits.
fn is_numeric(word: &[u8]) -> bool
    ensures { result ≡ is_numeric word.now }
{
    1 <= word.len() && word.len() <= 10 && all_digits(word)
}

fn decimal(word: &[u8]) -> u64
    requires { is_numeric word.now ≡ true }
    ensures { result ≡ decimal_after 0 word.now }
{
    let mut n = 0;
    for b in word {
        n = n * 10 + u64::from(*b - b'0');
    }
    n
}

/// The number that a word is: 1 to 10 decimal digits, at most 2^32 - 1.
#[tactic(auto, unfolding(crate::specs::Numbers::number_of))]
pub(crate) fn number_of(word: &[u8]) -> Option<u32>
    ensures { result ≡ number_of word.now }
{
    if !is_numeric(word) {
        return None;
    }
    let n = decimal(word);
    if n < 1 << 32 { Some(n as u32) } else { None }
}
