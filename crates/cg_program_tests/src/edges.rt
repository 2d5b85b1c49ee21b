//! Words at their edges, through a run.
use crate::calls::Worked;

/// Numbers, counts and names at their edges.
static DONE: [Worked; 8] = [
    (
        "the greatest number, the least and -0",
        "print 9223372036854775807; print -9223372036854775808; print -0",
        "value 9223372036854775807; value -9223372036854775808; value 0; end",
    ),
    (
        "numbers of nineteen digits",
        "print 0000000000000000007; print -0000000000000000007",
        "value 7; value -7; end",
    ),
    (
        "places at the edges of numbers",
        "a = list; x = item a 9223372036854775807; x = item a -9223372036854775808; setitem a -9223372036854775808 1; delitem a 9223372036854775807",
        "made list #2; refused 3; refused 3; refused 3; refused 3; end",
    ),
    (
        "generations at the edges of numbers",
        "collect 9223372036854775807; collect -9223372036854775808",
        "refused 8; refused 8; end",
    ),
    (
        "keys at the edges of numbers",
        "d = dict; put d 9223372036854775807 1; put d -9223372036854775808 2; x = get d 9223372036854775807; print x; x = get d -9223372036854775808; print x; x = get d 9223372036854775806",
        "made dict #2; value 1; value 2; refused 4; end",
    ),
    (
        "the greatest counts",
        "threshold 2147483647 2147483647 2147483647; a = list; count",
        "made list #2; count 1 0 0; end",
    ),
    (
        "counts of ten digits",
        "threshold 0000000009; budget 0000100000",
        "end",
    ),
    (
        "names of 32 bytes, wherever they stand; a string is no name",
        "def a2345678901234567890123456789012; end; class a2345678901234567890123456789012 del=a2345678901234567890123456789012; a2345678901234567890123456789012 = new a2345678901234567890123456789012; setattr a2345678901234567890123456789012 a2345678901234567890123456789012 '23456789012345678901234567890123; x = attr a2345678901234567890123456789012 a2345678901234567890123456789012; print x; del a2345678901234567890123456789012",
        "made instance #2; value '23456789012345678901234567890123; enter del #2; leave; free #2; end",
    ),
];

pub fn done() -> &'static [Worked] {
    &DONE
}
