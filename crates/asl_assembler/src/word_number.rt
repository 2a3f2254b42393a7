//! Numbers in words: decimal digits, alone or after a mark.

ghost use Rattle.std.specs.Prelude.{◌≡◌};
ghost use Rattle.std.specs.Option.{option_copied};
ghost use Rattle.asl_assembler.specs.Reading.{decimal_of, number_of, after_mark, marked_of, integer_of};

/// The value of a word of one to ten decimal digits.
#[tactic(auto, unfolding(crate::specs::Reading::decimal_of))]
fn decimal(word: &[u8]) -> Option<u64>
    ensures { result ≡ decimal_of word.now }
{
    if word.is_empty() || word.len() > 10 {
        return None;
    }
    let mut value: u64 = 0;
    for digit in word {
        if !digit.is_ascii_digit() {
            return None;
        }
        value = 10 * value + u64::from(*digit - b'0');
    }
    Some(value)
}

/// A number of 8 bits.
#[tactic(auto, unfolding(crate::specs::Reading::number_of))]
pub(crate) fn byte(word: &[u8]) -> Option<u8>
    ensures { result ≡ number_of 256 word.now }
{
    let value = decimal(word)?;
    if value < 256 { Some(value as u8) } else { None }
}

/// A number of 16 bits.
#[tactic(auto, unfolding(crate::specs::Reading::number_of))]
pub(crate) fn short(word: &[u8]) -> Option<u16>
    ensures { result ≡ number_of 65536 word.now }
{
    let value = decimal(word)?;
    if value < 65536 {
        Some(value as u16)
    } else {
        None
    }
}

/// What stands after the mark at the front of the word.
fn after_mark(mark: u8, word: &[u8]) -> Option<&[u8]>
    ensures { option_copied result ≡ after_mark mark word.now }
{
    match word {
        [first, rest @ ..] if *first == mark => Some(rest),
        _ => None,
    }
}

/// An integer of 32 bits, perhaps with `-` before it.
#[tactic(auto, unfolding(crate::specs::Reading::integer_of, crate::specs::Reading::number_of))]
pub(crate) fn integer(word: &[u8]) -> Option<i32>
    ensures { result ≡ integer_of word.now }
{
    match after_mark(b'-', word) {
        Some(digits) => {
            let value = decimal(digits)?;
            if value <= 2_147_483_648 {
                Some((-(value as i64)) as i32)
            } else {
                None
            }
        }
        None => {
            let value = decimal(word)?;
            if value <= 2_147_483_647 {
                Some(value as i32)
            } else {
                None
            }
        }
    }
}

/// A mark and a number of 8 bits after it.
#[tactic(auto, unfolding(crate::specs::Reading::marked_of))]
pub(crate) fn marked_byte(mark: u8, word: &[u8]) -> Option<u8>
    ensures { result ≡ marked_of mark 256 word.now }
{
    byte(after_mark(mark, word)?)
}

/// A mark and a number of 16 bits after it.
#[tactic(auto, unfolding(crate::specs::Reading::marked_of))]
pub(crate) fn marked_short(mark: u8, word: &[u8]) -> Option<u16>
    ensures { result ≡ marked_of mark 65536 word.now }
{
    short(after_mark(mark, word)?)
}
