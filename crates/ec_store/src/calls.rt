// Which of a row of calls a number names.
ghost use Rattle.std.specs.Prelude.{◌≡◌};
ghost use Rattle.ec_store.specs.Calls.{next_count, names_call, is_call};

/// A count with one more, up to 2^64 - 1.
pub fn next_count(count: u64) -> u64
    ensures { result ≡ next_count count }
{
    count.saturating_add(1)
}

/// Whether the number names the call that comes after so many.
pub fn names_call(number: u64, calls: u64) -> bool
    ensures { result ≡ names_call number calls }
{
    number == next_count(calls) && number < u64::MAX
}

/// The same of a number that may be missing and then names no call.
pub fn is_call(number: Option<u64>, calls: u64) -> bool
    ensures { result ≡ is_call number calls }
{
    match number {
        Some(n) => names_call(n, calls),
        None => false,
    }
}
