// A part of the text into the clip.
ghost use Rattle.std.specs.Prelude.{◌≡◌, OnErr};
ghost use Rattle.head_edits.specs.Performing.{Counts, Performs};
ghost use Rattle.pieces.specs.Edited.{Edits};
ghost use Rattle.pieces.specs.Sound.{whole, held};
ghost use Rattle.plain.specs.declared.calls.Call.TheVariants.{Cut};

use crate::closing::close_marks;
use edits::doors::cut_door;
use excisions::cutting::cut_text;
use measures::Measure;
use pieces::head::{Head, MarkRecord, TextRecord};
use plain::faults::TextFault;
use slots::records::Unsound;
use stores::Store;

fn cut_all<S: Store, A: Measure<Item = u8>>(
    slots: &mut [TextRecord<A::Value>],
    marks: &mut [MarkRecord],
    store: &mut S,
    head: Head,
    pieces: u32,
    from: u32,
    to: u32,
) -> Result<Head, Unsound>
    ensures { Performs A.Measure.means S.Store.contents (Cut from to) whole held (Counts pieces) store.old store.new slots.old slots.new marks.old marks.new head result }
{
    let mut free = head.free;
    let mut free_marks = head.free_marks;
    let parts = cut_text::<S, A>(slots, &mut free, store, head.text, from, to)?;
    let closed = close_marks(marks, &mut free_marks, head.marks, from, to)?;
    Ok(Head {
        text: parts.text,
        clip: parts.clip,
        free,
        pieces,
        marks: closed.tree,
        free_marks,
        mark_count: closed.count,
    })
}

pub fn cut<S: Store, A: Measure<Item = u8>>(
    head: &mut Head,
    slots: &mut [TextRecord<A::Value>],
    marks: &mut [MarkRecord],
    store: &mut S,
    from: u32,
    to: u32,
) -> Result<(), TextFault>
    ensures edits { Edits A.Measure.means S.Store.contents (Cut from to) whole held store.old store.new slots.old slots.new marks.old marks.new head.old head.new result }
    ensures stays { OnErr result (head.new ≡ head.old) }
{
    let pieces = cut_door::<A>(slots, head.text, head.pieces, from, to)?;
    *head = cut_all::<S, A>(slots, marks, store, *head, pieces, from, to)?;
    Ok(())
}
