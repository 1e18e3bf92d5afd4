// Which number a word spells.
ghost use Rattle.std.specs.Prelude.{◌≡◌, ◌≤◌};
ghost use Rattle.claim_file.specs.Numbers.{digit_value, spelled, number_of, capped};

// Stands for every number that is not below it.
pub(crate) const CAP: u64 = 4_294_967_296;

// The number of a digit of the base.
fn digit(base: u32, b: u8) -> Option<u32>
    requires low { 2 ≤ base }
    requires high { base ≤ 16 }
    ensures { result ≡ digit_value base b }
{
    char::from(b).to_digit(base)
}

// What one or more digits spell, or `CAP` where that is more.
fn digits(base: u32, text: &[u8]) -> Option<u64>
    requires low { 2 ≤ base }
    requires high { base ≤ 16 }
    ensures { result ≡ capped (spelled base text.now) }
{
    if text.is_empty() {
        return None;
    }
    let mut value: u64 = 0;
    for &b in text {
        let digit = u64::from(digit(base, b)?);
        value = (value * u64::from(base) + digit).min(CAP);
    }
    Some(value)
}

// The number that a word spells, or `CAP` where that is more.
pub(crate) fn number(word: &[u8]) -> Option<u64>
    ensures { result ≡ capped (number_of word.now) }
{
    match word.strip_prefix(b"0x") {
        Some(rest) => digits(16, rest),
        None => digits(10, word),
    }
}
