//! Shared by the sources and sinks in memory.
ghost use Rattle.std.specs.Prelude.{◌≡◌, ◌+◌, ◌++◌, length, take, drop, min};
ghost use Rattle.cg_io.specs.Memory.{is_listed};

/// Whether the call after this many calls is in the list of failing calls.
pub(crate) fn is_next_listed(fails: &[u64], calls: u64) -> bool
    ensures { result ≡ is_listed fails.now (calls + 1) }
{
    // The number of that call may overflow a `u64` by one.
    fails
        .iter()
        .any(|&number| number > 0 && number - 1 == calls)
}

/// Copies as much of `bytes` as fits into the front of `buf`, and returns the number of bytes.
pub(crate) fn copy_front(bytes: &[u8], buf: &mut [u8]) -> usize
    ensures count { result ≡ min (length bytes.now) (length buf.old) }
    ensures copied { buf.new ≡ take result bytes.now ++ drop result buf.old }
{
    let n = bytes.len().min(buf.len());
    buf[..n].copy_from_slice(&bytes[..n]);
    n
}
