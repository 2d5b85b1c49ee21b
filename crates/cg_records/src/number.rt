//! Reading decimal numbers.
ghost use Rattle.std.specs.Prelude.{◌≡◌, ◌≢◌, ◌<◌, ◌≤◌, ◌+◌, ◌-◌, ◌*◌, ◌^◌, ◌++◌, ◌∷◌, ℕ, List, length, slice_index, decimal, IfSome, IfNone};
ghost use Rattle.std.specs.Int.{IsInRange};
ghost use Rattle.cg_records.specs.Number.{is_plain};

/// The first position of a byte, or the number of bytes if there is none.
pub fn place_of(bytes: &[u8], byte: u8) -> usize
    ensures within { result ≤ length bytes.now }
    ensures before { (k : ℕ) → k < result → slice_index bytes.now k ≢ byte }
    ensures found { result < length bytes.now → slice_index bytes.now result ≡ byte }
{
    'bytes: for (place, other) in bytes.iter().enumerate() {
        if *other == byte {
            return place;
        }
    }
    bytes.len()
}

/// Whether a word is nonempty and has no leading zero.
fn is_plain_word(word: &[u8]) -> bool
    ensures { result ≡ is_plain word.now }
{
    !word.is_empty() && (word.len() == 1 || word[0] != b'0')
}

/// The number with one more digit, if the byte is a digit and the result fits.
fn with_digit(number: u64, byte: u8) -> Option<u64>
    ensures found { IfSome result (λ more. IsInRange 48 57 byte
        × (more ≡ number * 10 + (byte - 48))) }
    ensures fits { IfSome result (λ more. more < 2 ^ 64) }
    ensures none { IfNone result (IsInRange 48 57 byte → 2 ^ 64 ≤ number * 10 + (byte - 48)) }
{
    if byte < b'0' || byte > b'9' {
        return None;
    }
    number.checked_mul(10)?.checked_add(u64::from(byte - b'0'))
}

/// The number that a word denotes in decimal without leading zeros; `None` if it is not one, or
/// needs more than 64 bits.
pub fn number_of_word(word: &[u8]) -> Option<u64>
    ensures found { IfSome result (λ number. word.now ≡ decimal number) }
    ensures fits { IfSome result (λ number. number < 2 ^ 64) }
    ensures none { IfNone result ((number : ℕ) → number < 2 ^ 64 → word.now ≢ decimal number) }
{
    if !is_plain_word(word) {
        return None;
    }
    let mut number: u64 = 0;
    'digits: for digit in word {
        number = with_digit(number, *digit)?;
    }
    Some(number)
}

/// The number at the front, up to a byte that is not a digit, and the bytes after that byte.
pub(crate) fn read_number(bytes: &[u8], stop: u8) -> Option<(u64, &[u8])>
    requires { stop < 48 }
    ensures found { IfSome result (λ read. bytes.now ≡ decimal read.0 ++ stop ∷ read.1.now) }
    ensures fits { IfSome result (λ read. read.0 < 2 ^ 64) }
    ensures none { IfNone result ((number : ℕ) (rest : List ℕ) → number < 2 ^ 64
        → bytes.now ≢ decimal number ++ stop ∷ rest) }
{
    let end = place_of(bytes, stop);
    if end == bytes.len() {
        return None;
    }
    let number = number_of_word(&bytes[..end])?;
    Some((number, &bytes[end + 1..]))
}
