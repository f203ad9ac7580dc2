// Bytes out of the text.
ghost use Rattle.std.specs.Prelude.{◌≡◌, OnErr};
ghost use Rattle.head_edits.specs.Performing.{Any, Performs};
ghost use Rattle.pieces.specs.Edited.{Edits};
ghost use Rattle.pieces.specs.Sound.{whole};
ghost use Rattle.plain.specs.declared.calls.Call.TheVariants.{Delete};

use crate::closing::close_marks;
use edits::doors::delete_door;
use excisions::deleting::delete_text;
use measures::Measure;
use pieces::head::{Head, MarkRecord, TextRecord};
use plain::faults::TextFault;
use slots::records::Unsound;
use stores::Store;

fn delete_all<S: Store, A: Measure<Item = u8>>(
    slots: &mut [TextRecord<A::Value>],
    marks: &mut [MarkRecord],
    store: &mut S,
    head: Head,
    from: u32,
    to: u32,
) -> Result<Head, Unsound>
    ensures { Performs A.Measure.means S.Store.contents (Delete from to) whole whole Any store.old store.new slots.old slots.new marks.old marks.new head result }
{
    let mut free = head.free;
    let mut free_marks = head.free_marks;
    let left = delete_text::<S, A>(slots, &mut free, store, head.text, head.pieces, from, to)?;
    let closed = close_marks(marks, &mut free_marks, head.marks, from, to)?;
    Ok(Head {
        text: left.text,
        free,
        pieces: left.pieces,
        marks: closed.tree,
        free_marks,
        mark_count: closed.count,
        ..head
    })
}

pub fn delete<S: Store, A: Measure<Item = u8>>(
    head: &mut Head,
    slots: &mut [TextRecord<A::Value>],
    marks: &mut [MarkRecord],
    store: &mut S,
    from: u32,
    to: u32,
) -> Result<(), TextFault>
    ensures edits { Edits A.Measure.means S.Store.contents (Delete from to) whole whole store.old store.new slots.old slots.new marks.old marks.new head.old head.new result }
    ensures stays { OnErr result (head.new ≡ head.old) }
{
    delete_door::<A>(slots, head.text, head.pieces, from, to)?;
    *head = delete_all::<S, A>(slots, marks, store, *head, from, to)?;
    Ok(())
}
