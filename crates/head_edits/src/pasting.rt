// The clip into the text.
ghost use Rattle.std.specs.Prelude.{◌≡◌, OnErr};
ghost use Rattle.head_edits.specs.Performing.{Counts, Performs};
ghost use Rattle.pieces.specs.Edited.{Edits};
ghost use Rattle.pieces.specs.Sound.{whole, held};
ghost use Rattle.plain.specs.declared.calls.Call.TheVariants.{Paste};

use edits::doors::{paste_door, size_of};
use edits::pasting::paste_text;
use mark_moves::growing::grow_marks;
use measures::Measure;
use pieces::head::{Head, MarkRecord, TextRecord};
use plain::faults::TextFault;
use slots::records::{Tree, Unsound};
use stores::Store;

fn paste_all<S: Store, A: Measure<Item = u8>>(
    slots: &mut [TextRecord<A::Value>],
    marks: &mut [MarkRecord],
    store: &mut S,
    head: Head,
    pieces: u32,
    at: u32,
) -> Result<Head, Unsound>
    ensures { Performs A.Measure.means S.Store.contents (Paste at) held whole (Counts pieces) store.old store.new slots.old slots.new marks.old marks.new head result }
{
    let length = size_of::<A>(slots, head.clip)?;
    let mut free = head.free;
    let mut free_marks = head.free_marks;
    let text = paste_text::<S, A>(slots, &mut free, store, head.text, head.clip, at)?;
    let moved = grow_marks(marks, &mut free_marks, head.marks, at, length)?;
    Ok(Head {
        text,
        clip: Tree::Empty,
        free,
        pieces,
        marks: moved,
        free_marks,
        ..head
    })
}

pub fn paste<S: Store, A: Measure<Item = u8>>(
    head: &mut Head,
    slots: &mut [TextRecord<A::Value>],
    marks: &mut [MarkRecord],
    store: &mut S,
    at: u32,
) -> Result<(), TextFault>
    ensures edits { Edits A.Measure.means S.Store.contents (Paste at) held whole store.old store.new slots.old slots.new marks.old marks.new head.old head.new result }
    ensures stays { OnErr result (head.new ≡ head.old) }
{
    let pieces = paste_door::<A>(slots, head.text, head.pieces, at)?;
    *head = paste_all::<S, A>(slots, marks, store, *head, pieces, at)?;
    Ok(())
}
