//! Where the bytes of a word lie.
ghost use Rattle.std.specs.Prelude.{◌≡◌, [], ◌++◌, IfOk, OnOk, OnErr};
ghost use Rattle.el_words.specs.Storage.{stored};

use crate::inline_bytes::InlineBytes;
use std::alloc::{AllocError, Global};

/// Where a word's bytes lie: few of them in place, and more in memory of their own.
#[derive(Drop)]
pub(crate) enum Storage {
    Inline(InlineBytes),
    Heap(Box<Vec<u8>>),
}

impl Storage {
    /// No bytes.
    pub(crate) fn new() -> Storage
        ensures { stored result ≡ [] }
    {
        Storage::Inline(InlineBytes::new())
    }

    /// A copy of `bytes`.
    #[inline]
    pub(crate) fn from_slice(alloc: Global, bytes: &[u8]) -> Result<Storage, AllocError>
        ensures { IfOk result (λ storage. stored storage ≡ bytes.now) }
    {
        let mut inline = InlineBytes::new();
        if inline.append(bytes) {
            return Ok(Storage::Inline(inline));
        }
        Storage::on_heap(alloc, bytes, &[])
    }

    pub(crate) fn as_slice(&self) -> &[u8]
        ensures { result.now ≡ stored self.now }
    {
        match self {
            Storage::Inline(inline) => inline.as_slice(),
            Storage::Heap(heap) => heap.as_slice(),
        }
    }

    /// Puts all of `more` behind. After an error the bytes are as before.
    #[inline]
    pub(crate) fn append(&mut self, alloc: Global, more: &[u8]) -> Result<(), AllocError>
        ensures ok { OnOk result (stored self.new ≡ stored self.old ++ more.now) }
        ensures err { OnErr result (stored self.new ≡ stored self.old) }
    {
        match self {
            Storage::Inline(inline) => {
                if inline.append(more) {
                    return Ok(());
                }
            }
            Storage::Heap(heap) => return heap.extend_from_slice(more),
        }
        *self = Storage::on_heap(alloc, self.as_slice(), more)?;
        Ok(())
    }

    /// The bytes of `front` and those of `back` behind them, in memory of their own.
    #[cold]
    #[inline(never)]
    fn on_heap(alloc: Global, front: &[u8], back: &[u8]) -> Result<Storage, AllocError>
        ensures { IfOk result (λ storage. stored storage ≡ front.now ++ back.now) }
    {
        let mut heap = Vec::with_capacity(alloc, front.len().saturating_add(back.len()))?;
        heap.extend_from_slice(front)?;
        heap.extend_from_slice(back)?;
        Ok(Storage::Heap(Box::new(alloc, heap)?))
    }
}
