//! Numbers in a line written by a top call.

/// The number that is the word at this position, from 0: in `bad script 3 4` the 3 is at 2. None if
/// no such word is a number.
pub fn number_at(line: &[u8], place: usize) -> Option<u64> {
    let line = str::from_utf8(line).ok()?;
    let word = line.split_whitespace().nth(place)?;
    word.parse::<u64>().ok()
}
