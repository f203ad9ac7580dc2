// Two stores as one: the front first, and behind it the back, which alone grows.
ghost use Rattle.std.specs.Prelude.{◌+◌, ◌≤◌, length};
ghost use Rattle.stores.specs.Stores.{largest};

use crate::Store;
pub use joining::{Unjoined, join};
use plain::faults::StoreFull;

mod joining;

#[derive(Drop)]
pub struct Joined<F: Store, B: Store> {
    front: F,
    back: B,
    ghost fits: { length (F.Store.contents front).bytes + (B.Store.contents back).capacity ≤ largest },
}

impl<F: Store, B: Store> Store for Joined<F, B> {
    ghost use Rattle.stores.specs.Kinds.{joined_contents};
    ghost use Rattle.stores.specs.Laws.{joined_lawful};

    ghost contents = { joined_contents };

    ghost lawful = { joined_lawful F.Store B.Store B.Store.lawful };

    fn len(&self) -> u32 {
        self.front.len() + self.back.len()
    }

    fn spare(&self) -> u32 {
        self.back.spare()
    }

    fn count(&self) -> u64 {
        self.front.count().saturating_add(self.back.count())
    }

    fn read(&mut self, at: u32) -> Option<u8> {
        let border = self.front.len();
        if at < border {
            self.front.read(at)
        } else {
            self.back.read(at - border)
        }
    }

    fn append(&mut self, more: &[u8]) -> Result<u32, StoreFull> {
        let border = self.front.len();
        match self.back.append(more) {
            Ok(at) => Ok(border + at),
            Err(full) => Err(StoreFull {
                length: border + full.length,
                spare: full.spare,
            }),
        }
    }
}
