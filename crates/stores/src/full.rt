// Stores that have nothing to spare take an append of no bytes only.
ghost use Rattle.std.specs.Prelude.{◌≡◌, ℕ, List, length as size};
ghost use Rattle.stores.specs.Stores.{Outcome};

use plain::faults::StoreFull;

#[tactic(auto, using(crate::proofs::Holdings::append_none))]
pub fn append_to_full(length: u32, more: &[u8]) -> Result<u32, StoreFull>
    ensures { (bytes : List ℕ) → length ≡ size bytes → Outcome bytes length more.now result bytes }
{
    if more.is_empty() {
        Ok(length)
    } else {
        Err(StoreFull { length, spare: 0 })
    }
}
