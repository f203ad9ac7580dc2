// Whether the whole memory of a text is sound, answered for any contents.
#![tactic(auto)]

ghost use Rattle.memory_audit.specs.Inspected.{MemoryInspected};
ghost use Rattle.memory_audit.specs.MemoryAudited.{MemoryAudited};

use crate::inspecting::{inspect_marks, inspect_text};
use measures::Measure;
use pieces::head::{Head, MarkRecord, TextRecord};
use plain::faults::TextFault;
use slots::records::Unsound;
use stores::Store;

mod inspecting;
mod leaves;

// Both slices, and that no mark lies past the end of the text.
fn inspect_memory<S: Store, A: Measure<Item = u8>>(
    slots: &[TextRecord<A::Value>],
    marks: &[MarkRecord],
    store: &mut S,
    head: &Head,
    scratch: &mut [u8],
) -> Result<(), Unsound>
    ensures { MemoryInspected A.Measure.means S.Store.contents store.old store.new slots.now marks.now head.now scratch.old result }
{
    let size = inspect_text::<S, A>(slots, store, head, scratch)?;
    let last = inspect_marks(marks, head, scratch)?;
    if last > size {
        return Err(Unsound);
    }
    Ok(())
}

// Of each slice only the watched slots are lent. The scratch has a byte for each slot of the larger slice; they are zero
// afterwards.
pub fn audit_memory<S: Store, A: Measure<Item = u8>>(
    slots: &[TextRecord<A::Value>],
    marks: &[MarkRecord],
    store: &mut S,
    head: &Head,
    scratch: &mut [u8],
) -> Result<(), TextFault>
    ensures { MemoryAudited A.Measure.means S.Store.contents store.old store.new slots.now marks.now head.now scratch.old scratch.new result }
{
    let larger = slots.len().max(marks.len());
    if scratch.len() < larger {
        return Err(TextFault::Slots);
    }
    let front = &mut scratch[0..larger];
    let found = inspect_memory::<S, A>(slots, marks, store, head, front);
    front.fill(0);
    Ok(found?)
}
