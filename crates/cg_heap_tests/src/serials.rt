//! Nearby serials in an index table. The table chooses a group by the low bits of a hash, and
//! separates the members of a group by a tag, the byte above bit 24, at least 1.

use cg_serial::serial_hashing;
use std::hash::BuildHasher;
use std::process::Abort;
use std::test::Fail;

/// The bits that choose a group.
fn group_bits(serial: u64) -> u64 {
    serial_hashing().hash_one(serial) & 0x00ff_ffff
}

fn tag(serial: u64) -> u64 {
    (serial_hashing().hash_one(serial) >> 24).max(1)
}

/// Eight consecutive serials from a multiple of eight.
fn assert_eight_differ(rt: &impl Abort, first: u64) {
    assert!(rt; first < 1 << 40);
    for i in 0..8u64 {
        assert_eq!(rt; group_bits(first + i), group_bits(first));
        assert!(rt; tag(first + i) < 256);
        for j in 0..i {
            assert!(rt; tag(first + i) != tag(first + j), "{first} + {i} and {j}");
        }
    }
    assert!(rt; group_bits(first + 8) != group_bits(first));
}

#[test]
fn eight_serials_in_a_row_share_a_group_and_differ_in_their_tags(
    rt: HostRuntime,
) -> Result<(), Fail> {
    for first in [0, 80, 1_000_000, 1 << 32] {
        assert_eight_differ(&rt, first);
    }
    Ok(())
}
