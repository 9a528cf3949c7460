// The number that a run of digits spells.
ghost use Rattle.std.specs.Prelude.{◌≡◌};
ghost use Rattle.tokens.specs.Numbers.{number_of};

const GREATEST: u64 = 1_000_000_000_000_000_000;

// The number, unless it has a leading zero or is above the greatest.
pub fn number(digits: &[u8]) -> Option<u64>
    ensures { result ≡ number_of digits.now }
{
    if let [b'0', _, ..] = digits {
        return None;
    }
    // A loop, since the bound on the value carries each product; a closure of `try_fold` does not have it.
    let mut value: u64 = 0;
    for digit in digits {
        value = value * 10 + u64::from(digit.saturating_sub(b'0'));
        if value > GREATEST {
            return None;
        }
    }
    Some(value)
}
