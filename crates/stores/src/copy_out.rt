// A user of any store, proved once for all kinds.
ghost use Rattle.stores.specs.Stores.{CopiesOut};

use crate::Store;

// Copies the bytes from `from` on to the front of the buffer, as many as there are and fit, each read once.
// Gives how many.
pub fn copy_out<S: Store>(store: &mut S, from: u32, buffer: &mut [u8]) -> usize
    ensures { CopiesOut S.Store.contents store.old from buffer.old result store.new buffer.new }
{
    let left = store.len().saturating_sub(from);
    let count = buffer.len().min(left as usize);
    for (i, place) in buffer[..count].iter_mut().enumerate() {
        if let Some(byte) = store.read(from + i as u32) {
            *place = byte;
        }
    }
    count
}
