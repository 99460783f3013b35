// The numbers that words spell: one or more decimal digits and nothing else.

// The number that a word spells; none where it spells no number of this width.
pub fn number<N: TryFrom<u64>>(word: &[u8]) -> Option<N>
where
    N::Error: Drop,
{
    if word.is_empty() {
        return None;
    }
    let value = word.iter().try_fold(0, |value, b| with_digit(value, *b))?;
    N::try_from(value).ok()
}

fn with_digit(value: u64, b: u8) -> Option<u64> {
    let digit = char::from(b).to_digit(10)?;
    value.checked_mul(10)?.checked_add(u64::from(digit))
}
