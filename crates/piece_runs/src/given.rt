//! A source that gives its bytes in pieces.

ghost use Rattle.std.specs.Prelude.{Some};

use omci_core::{Failed, MemSource, Source};

/// A source over bytes in memory that gives so many of them at most in one read, and one at least.
#[derive(Drop)]
pub struct Given {
    inner: MemSource,
    most: usize,
}

impl Given {
    /// A source that gives these bytes.
    pub fn new(inner: MemSource, most: usize) -> Given {
        Given { inner, most }
    }
}

impl Source for Given {
    ghost left = { λ s. Some s.inner.left };

    ghost faults = { λ s. s.inner.faults };

    fn read(&mut self, into: &mut [u8]) -> Result<usize, Failed> {
        let most = into.len().min(self.most.max(1));
        self.inner.read(&mut into[..most])
    }
}
