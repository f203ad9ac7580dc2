// Bytes behind a trait: every store means a list of bytes, a capacity and a count of the reads so far.
#![tactic(auto)]

ghost use Rattle.std.specs.Prelude.{◌≡◌, ◌-◌, length};
ghost use Rattle.stores.specs.Stores.{Contents, Lawful, ReadsAt, Appends};

use plain::faults::StoreFull;

pub mod buffer;
pub mod copy_out;
pub mod counted;
pub mod filled;
mod full;
pub mod joined;
mod lent;
pub mod original;

pub trait Store {
    ghost contents: { Self → Contents };

    ghost lawful: { Lawful contents };

    fn len(&self) -> u32
        ensures { result ≡ length (contents self.now).bytes };

    // How many bytes may still be appended.
    fn spare(&self) -> u32
        ensures { result ≡ (contents self.now).capacity - length (contents self.now).bytes };

    // The reads so far; it stops at the greatest number.
    fn count(&self) -> u64
        ensures { result ≡ (contents self.now).reads };

    // A read past the end counts too.
    fn read(&mut self, at: u32) -> Option<u8>
        ensures { ReadsAt contents self.old at result self.new };

    // Gives the address of the first byte of `more`.
    fn append(&mut self, more: &[u8]) -> Result<u32, StoreFull>
        ensures { Appends contents self.old more.now result self.new };
}
