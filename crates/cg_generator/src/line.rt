//! The forms of counted lines.
ghost use Rattle.std.specs.Prelude.{◌≡◌, ◌≤◌, length, min, option_map};
ghost use Rattle.std.specs.List.{prefix_len};
ghost use Rattle.cg_script.specs.Words.{after_prefix, is_digit, decimal_value};
ghost use Rattle.cg_generator.specs.Tallies.{begins, number_then, number_behind_space, second_of_three, collected_digits, collected_in as collected, is_refusal as refusal, largest};

/// What follows a prefix of a line.
fn after<'a>(front: &[u8], line: &'a [u8]) -> Option<&'a [u8]>
    ensures { option_map (λ rest. rest.now) result ≡ after_prefix front.now line.now }
{
    line.strip_prefix(front)
}

/// Whether a line has this prefix.
pub(crate) fn begins_with(front: &[u8], line: &[u8]) -> bool
    ensures { result ≡ begins front.now line.now }
{
    after(front, line).is_some()
}

fn is_digit_byte(byte: u8) -> bool
    ensures { result ≡ is_digit byte }
{
    byte.is_ascii_digit()
}

/// How many digits some bytes begin with.
fn digits_at_front(bytes: &[u8]) -> usize
    ensures count { result ≡ prefix_len is_digit bytes.now }
    ensures within { result ≤ length bytes.now }
{
    let mut count = 0;
    'digits: while count < bytes.len() && is_digit_byte(bytes[count]) {
        count += 1;
    }
    count
}

/// The digits at the front, and what follows them.
fn number_and_rest(bytes: &[u8]) -> Option<(&[u8], &[u8])>
    ensures { option_map (λ parts. (parts.0.now, parts.1.now)) result ≡ number_then bytes.now }
{
    let count = digits_at_front(bytes);
    if count == 0 {
        return None;
    }
    Some((&bytes[..count], &bytes[count..]))
}

/// The same after a space.
fn spaced_number(bytes: &[u8]) -> Option<(&[u8], &[u8])>
    ensures { option_map (λ parts. (parts.0.now, parts.1.now)) result
        ≡ number_behind_space bytes.now }
{
    let rest = after(b" ", bytes)?;
    number_and_rest(rest)
}

/// The second of three numbers with one space between them, and nothing after them.
fn middle_of_three(bytes: &[u8]) -> Option<&[u8]>
    ensures { option_map (λ digits. digits.now) result ≡ second_of_three bytes.now }
{
    let (_, behind_first) = number_and_rest(bytes)?;
    let (second, behind_second) = spaced_number(behind_first)?;
    let (_, rest) = spaced_number(behind_second)?;
    if rest.is_empty() { Some(second) } else { None }
}

/// The number that digits write, at most 2^64 - 1.
fn value(digits: &[u8]) -> u64
    ensures { result ≡ min (decimal_value digits.now) largest }
{
    let mut so_far = 0u64;
    'digits: for digit in digits {
        let unit = u64::from(digit.saturating_sub(b'0'));
        so_far = so_far.saturating_mul(10).saturating_add(unit);
    }
    so_far
}

/// M of a line `gc stop g M N`.
fn digits_of_stop(line: &[u8]) -> Option<&[u8]>
    ensures { option_map (λ digits. digits.now) result ≡ collected_digits line.now }
{
    let rest = after(b"gc stop ", line)?;
    middle_of_three(rest)
}

/// The number of objects that a line `gc stop g M N` says were freed, and 0 for a line of another
/// form.
pub(crate) fn collected_in(line: &[u8]) -> u64
    ensures { result ≡ min (collected line.now) largest }
{
    match digits_of_stop(line) {
        Some(digits) => value(digits),
        None => 0,
    }
}

/// Whether a line reports a refused command.
pub(crate) fn is_refusal(line: &[u8]) -> bool
    ensures { result ≡ refusal line.now }
{
    begins_with(b"refused ", line)
}
