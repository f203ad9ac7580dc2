// A lent buffer that appends fill from its start.
ghost use Rattle.std.specs.Prelude.{◌≡◌, min, [], length};
ghost use Rattle.stores.specs.Stores.{largest};
ghost use Rattle.stores.specs.Kinds.{space_bytes, space_capacity, buffer_contents};
ghost use Rattle.stores.specs.Laws.{space_sized};

use crate::counted::{Bytes, Counted};
use crate::lent::counting;
use plain::faults::StoreFull;

pub type Buffer<'a> = Counted<Space<'a>>;

// No ghost field says that `used` fits: a call that joins a `&mut` to a struct with one gets no proof.
#[derive(Drop)]
pub struct Space<'a> {
    space: &'a mut [u8],
    used: u32,
}

impl<'a> Buffer<'a> {
    pub fn new(space: &'a mut [u8]) -> Buffer<'a>
        ensures bytes { (buffer_contents result).bytes ≡ [] }
        ensures capacity { (buffer_contents result).capacity ≡ min (length space.old) largest }
        ensures reads { (buffer_contents result).reads ≡ 0 }
    {
        Counted::of(Space { space, used: 0 })
    }
}

impl<'a> Bytes for Space<'a> {
    ghost bytes = { space_bytes };

    ghost capacity = { space_capacity };

    ghost sized = { space_sized };

    fn len(&self) -> u32 {
        counting(self.space).len().min(self.used as usize) as u32
    }

    fn spare(&self) -> u32 {
        counting(self.space).len() as u32 - self.len()
    }

    fn get(&self, at: u32) -> Option<u8> {
        self.space[..self.len() as usize].get(at as usize).copied()
    }

    fn append(&mut self, more: &[u8]) -> Result<u32, StoreFull> {
        let length = self.len();
        let spare = self.spare();
        if more.len() > spare as usize {
            return Err(StoreFull { length, spare });
        }
        let end = length as usize + more.len();
        self.space[length as usize..end].copy_from_slice(more);
        self.used = end as u32;
        Ok(length)
    }
}
