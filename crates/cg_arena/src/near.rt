//! A hint of a node's slot.

/// A hint of a node's slot. A wrong hint is harmless: the call then looks the node up. It only
/// saves time.
#[derive(Clone, Copy, Debug, Default)]
pub struct Near {
    pub slot: usize,
}

impl Near {
    /// The hint of an optional slot.
    #[inline(always)]
    pub fn at(slot: Option<u32>) -> Near {
        match slot {
            Some(slot) => Near {
                slot: slot as usize,
            },
            None => Near { slot: 0 },
        }
    }
}
