// Bytes that can be looked at freely, and the store of them, which counts each read.
ghost use Rattle.std.specs.Prelude.{◌≡◌, ℕ, ◌-◌, List, length};
ghost use Rattle.stores.specs.Stores.{Sized, ByteAt, Outcome};
ghost use Rattle.stores.specs.Kinds.{counted_contents};
ghost use Rattle.stores.specs.Laws.{counted_lawful};

use crate::Store;
use plain::faults::StoreFull;

pub trait Bytes {
    ghost bytes: { Self → List ℕ };

    ghost capacity: { Self → ℕ };

    ghost sized: { (b : Self) → Sized (bytes b) (capacity b) };

    fn len(&self) -> u32
        ensures { result ≡ length (bytes self.now) };

    // How many bytes may still be appended.
    fn spare(&self) -> u32
        ensures { result ≡ capacity self.now - length (bytes self.now) };

    fn get(&self, at: u32) -> Option<u8>
        ensures { ByteAt (bytes self.now) at result };

    fn append(&mut self, more: &[u8]) -> Result<u32, StoreFull>
        ensures outcome { Outcome (bytes self.old) (capacity self.old) more.now result (bytes self.new) }
        ensures same_capacity { capacity self.new ≡ capacity self.old };
}

#[derive(Drop)]
pub struct Counted<B> {
    held: B,
    reads: u64,
}

impl<B: Bytes> Counted<B> {
    pub fn of(held: B) -> Counted<B>
        ensures { counted_contents B.Bytes.bytes B.Bytes.capacity result ≡ record { bytes = B.Bytes.bytes held; capacity = B.Bytes.capacity held; reads = 0 } }
    {
        Counted { held, reads: 0 }
    }
}

impl<B: Bytes> Store for Counted<B> {
    ghost contents = { counted_contents B.Bytes.bytes B.Bytes.capacity };

    ghost lawful = { counted_lawful B.Bytes.bytes B.Bytes.capacity B.Bytes.sized };

    fn len(&self) -> u32 {
        self.held.len()
    }

    fn spare(&self) -> u32 {
        self.held.spare()
    }

    fn count(&self) -> u64 {
        self.reads
    }

    fn read(&mut self, at: u32) -> Option<u8> {
        self.reads = self.reads.saturating_add(1);
        self.held.get(at)
    }

    fn append(&mut self, more: &[u8]) -> Result<u32, StoreFull> {
        self.held.append(more)
    }
}
