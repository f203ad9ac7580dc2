// Bytes into the text.
ghost use Rattle.std.specs.Prelude.{◌≡◌, OnErr};
ghost use Rattle.head_edits.specs.Performing.{Inserts};
ghost use Rattle.pieces.specs.Edited.{Edits};
ghost use Rattle.pieces.specs.Sound.{whole};
ghost use Rattle.plain.specs.declared.calls.Call.TheVariants.{Insert};

use edits::doors::insert_door;
use edits::inserting::put_text;
use mark_moves::growing::grow_marks;
use measures::Measure;
use measures::scan::measured;
use pieces::head::{Head, MarkRecord, TextMeasure, TextRecord};
use pieces::rows::PieceRow;
use plain::faults::TextFault;
use slots::records::Unsound;
use stores::Store;

// No insert has more bytes.
const MOST_BYTES: usize = 256;

// The bytes, which the store has at the address by now, go into the text, and the marks move on.
fn put_all<S: Store, A: Measure<Item = u8>>(
    slots: &mut [TextRecord<A::Value>],
    marks: &mut [MarkRecord],
    store: &mut S,
    head: Head,
    pieces: u32,
    at: u32,
    address: u32,
    bytes: &[u8],
) -> Result<Head, Unsound>
    ensures { Inserts A.Measure.means S.Store.contents at bytes.now pieces address store.old store.new slots.old slots.new marks.old marks.new head result }
{
    let length = bytes.len().min(MOST_BYTES) as u32;
    let row = PieceRow { address, length };
    let value = measured::<TextMeasure<A>>(bytes);
    let mut free = head.free;
    let mut free_marks = head.free_marks;
    let text = put_text::<S, A>(slots, &mut free, store, head.text, at, row, value)?;
    let moved = grow_marks(marks, &mut free_marks, head.marks, at, length)?;
    Ok(Head {
        text,
        free,
        pieces,
        marks: moved,
        free_marks,
        ..head
    })
}

pub fn insert<S: Store, A: Measure<Item = u8>>(
    head: &mut Head,
    slots: &mut [TextRecord<A::Value>],
    marks: &mut [MarkRecord],
    store: &mut S,
    at: u32,
    bytes: &[u8],
) -> Result<(), TextFault>
    ensures edits { Edits A.Measure.means S.Store.contents (Insert at bytes.now) whole whole store.old store.new slots.old slots.new marks.old marks.new head.old head.new result }
    ensures stays { OnErr result (head.new ≡ head.old) }
{
    let pieces = insert_door::<A>(slots, head.text, head.pieces, at, bytes.len())?;
    let address = store.append(bytes)?;
    *head = put_all::<S, A>(slots, marks, store, *head, pieces, at, address, bytes)?;
    Ok(())
}
