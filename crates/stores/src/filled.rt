// One byte value repeated, without memory.
ghost use Rattle.std.specs.Prelude.{◌≡◌, replicate};
ghost use Rattle.stores.specs.Kinds.{repeated_bytes, repeated_capacity, filled_contents};
ghost use Rattle.stores.specs.Laws.{repeated_sized};

use crate::counted::{Bytes, Counted};
use crate::full::append_to_full;
use plain::faults::StoreFull;

pub type Filled = Counted<Repeated>;

#[derive(Drop)]
pub struct Repeated {
    byte: u8,
    length: u32,
}

impl Filled {
    pub fn new(byte: u8, length: u32) -> Filled
        ensures bytes { (filled_contents result).bytes ≡ replicate length byte }
        ensures capacity { (filled_contents result).capacity ≡ length }
        ensures reads { (filled_contents result).reads ≡ 0 }
    {
        Counted::of(Repeated { byte, length })
    }
}

impl Bytes for Repeated {
    ghost bytes = { repeated_bytes };

    ghost capacity = { repeated_capacity };

    ghost sized = { repeated_sized };

    fn len(&self) -> u32 {
        self.length
    }

    fn spare(&self) -> u32 {
        0
    }

    fn get(&self, at: u32) -> Option<u8> {
        (at < self.length).then_some(self.byte)
    }

    fn append(&mut self, more: &[u8]) -> Result<u32, StoreFull> {
        append_to_full(self.length, more)
    }
}
