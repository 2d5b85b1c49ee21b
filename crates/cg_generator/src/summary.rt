//! The line of a tally.
ghost use Rattle.std.specs.Prelude.{◌≡◌, ◌≤◌, ◌+◌, ◌++◌, length, decimal};
ghost use Rattle.cg_generator.specs.Tallies.{summary_of};

use crate::counts::Tally;
use arrayvec::ArrayString;
use itoa::Buffer;

/// The line `summary A B C D E` of a tally, with its line feed: how many objects were made and
/// freed, how many collections stopped, how many objects they collected, and the number of lines.
/// (Ours.)
pub fn summary_line(tally: &Tally) -> ArrayString<200>
    ensures { result.bytes ≡ summary_of tally.now }
{
    let mut text = ArrayString::new();
    text.push_str("summary ");
    push_number(&mut text, tally.made);
    text.push_str(" ");
    push_number(&mut text, tally.freed);
    text.push_str(" ");
    push_number(&mut text, tally.stops);
    text.push_str(" ");
    push_number(&mut text, tally.collected);
    text.push_str(" ");
    push_number(&mut text, tally.lines);
    text.push_str("\n");
    text
}

fn push_number(text: &mut ArrayString<200>, number: u64)
    requires { length text.old.bytes + 40 ≤ 200 }
    ensures appended { text.new.bytes ≡ text.old.bytes ++ decimal number }
    ensures room { length text.new.bytes ≤ length text.old.bytes + 20 }
{
    let mut buffer = Buffer::new();
    text.push_str(buffer.format(number));
}
