// A lent text that is only read.
ghost use Rattle.std.specs.Prelude.{◌≡◌, length};
ghost use Rattle.stores.specs.Kinds.{counting, text_bytes, text_capacity, original_contents};
ghost use Rattle.stores.specs.Laws.{text_sized};

use crate::counted::{Bytes, Counted};
use crate::full::append_to_full;
use crate::lent::counting;
use plain::faults::StoreFull;

pub type Original<'a> = Counted<Text<'a>>;

#[derive(Drop)]
pub struct Text<'a> {
    text: &'a [u8],
}

impl<'a> Original<'a> {
    pub fn new(text: &'a [u8]) -> Original<'a>
        ensures bytes { (original_contents result).bytes ≡ counting text.now }
        ensures capacity { (original_contents result).capacity ≡ length (counting text.now) }
        ensures reads { (original_contents result).reads ≡ 0 }
    {
        Counted::of(Text { text })
    }
}

impl<'a> Bytes for Text<'a> {
    ghost bytes = { text_bytes };

    ghost capacity = { text_capacity };

    ghost sized = { text_sized };

    fn len(&self) -> u32 {
        counting(self.text).len() as u32
    }

    fn spare(&self) -> u32 {
        0
    }

    fn get(&self, at: u32) -> Option<u8> {
        counting(self.text).get(at as usize).copied()
    }

    fn append(&mut self, more: &[u8]) -> Result<u32, StoreFull> {
        append_to_full(self.len(), more)
    }
}
