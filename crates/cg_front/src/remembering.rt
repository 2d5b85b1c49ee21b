//! A reader that remembers the first bytes it read.
use std::alloc::Global;
use std::io;
use std::io::Read;

/// The maximum number of bytes remembered.
const MOST: usize = 1_048_576;

/// A reader, and the first mebibyte of what it read. It reads exactly as the reader does. If memory
/// runs out, it remembers less.
#[derive(Drop)]
pub struct Remembering<R: Read + Drop> {
    inner: R,
    remembered: Vec<u8>,
}

impl<R: Read + Drop> Remembering<R> {
    /// This reader, with nothing remembered yet.
    pub fn new(alloc: Global, inner: R) -> Remembering<R> {
        Remembering {
            inner,
            remembered: Vec::new(alloc),
        }
    }

    /// The first bytes read.
    pub fn remembered(&self) -> &[u8] {
        self.remembered.as_slice()
    }
}

/// Remembers these bytes too, as far as the limit and memory allow.
fn remember(remembered: &mut Vec<u8>, bytes: &[u8]) {
    let room = MOST.saturating_sub(remembered.len());
    let kept = bytes.len().min(room);
    let _ = remembered.extend_from_slice(&bytes[..kept]);
}

impl<R: Read + Drop> Read for Remembering<R> {
    ghost remaining = { λ s. R.remaining s.inner };

    fn read(&mut self, buf: &mut [u8]) -> io::Result<usize> {
        let count = self.inner.read(buf)?;
        remember(&mut self.remembered, &buf[..count]);
        Ok(count)
    }
}
