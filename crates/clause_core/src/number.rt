//! Numbers of texts.
ghost use Rattle.std.specs.Prelude.{◌≡◌, ℕ, ◌^◌, ◌<◌, ◌≤◌, length, IfSome};
ghost use Rattle.clause_core.specs.Number.{digits_of, number_of};

/// A number with its sign. Zero may have either.
#[derive(Clone, Copy, Debug)]
pub struct Number {
    pub negative: bool,
    pub magnitude: u64,
}

/// The value of a word of 1 to 10 digits.
pub fn digits_value(word: &[u8]) -> Option<u64>
    ensures value { result ≡ digits_of word.now }
    ensures within { IfSome result (λ n. n < 10000000000) }
{
    if word.is_empty() || word.len() > 10 {
        return None;
    }
    let mut value = 0;
    for byte in word {
        if !byte.is_ascii_digit() {
            return None;
        }
        value = value * 10 + u64::from(*byte - b'0');
    }
    Some(value)
}

/// The number of a word: 1 to 10 digits, with one `-` before them or none.
pub fn signed_value(word: &[u8]) -> Option<Number>
    ensures value { result ≡ number_of word.now }
    ensures within { IfSome result (λ n. n.magnitude < 10000000000) }
{
    match word {
        [b'-', digits @ ..] => {
            let magnitude = digits_value(digits)?;
            Some(Number {
                negative: true,
                magnitude,
            })
        }
        _ => {
            let magnitude = digits_value(word)?;
            Some(Number {
                negative: false,
                magnitude,
            })
        }
    }
}
