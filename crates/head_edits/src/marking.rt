// One mark more.
ghost use Rattle.std.specs.Prelude.{◌≡◌, ℕ, List, OnErr};
ghost use Rattle.pieces.specs.Edited.{Edits};
ghost use Rattle.pieces.specs.Sound.{whole};
ghost use Rattle.plain.specs.declared.calls.Call.TheVariants.{Mark};
ghost use Rattle.stores.specs.Stores.{Contents};

use edits::doors::{decide_mark, size_of};
use mark_moves::putting::put_mark;
use measures::Measure;
use pieces::head::{Head, MarkRecord, TextRecord};
use pieces::limits::limit;
use plain::faults::TextFault;

// No byte is read, nor the text changed.
pub fn mark<A: Measure<Item = u8>>(
    head: &mut Head,
    slots: &[TextRecord<A::Value>],
    marks: &mut [MarkRecord],
    at: u32,
    label: u16,
) -> Result<(), TextFault>
    ensures edits { (s : Contents) → Edits A.Measure.means (λ (t : Contents). t) (Mark at label) whole whole s s slots.now slots.now marks.old marks.new head.old head.new result }
    ensures stays { OnErr result (head.new ≡ head.old) }
{
    let size = size_of::<A>(slots, head.text)?;
    decide_mark(at, size, head.mark_count, limit(marks.len()))?;
    let mut free_marks = head.free_marks;
    let tree = put_mark(marks, &mut free_marks, head.marks, at, label)?;
    *head = Head {
        marks: tree,
        free_marks,
        mark_count: head.mark_count.saturating_add(1),
        ..*head
    };
    Ok(())
}
