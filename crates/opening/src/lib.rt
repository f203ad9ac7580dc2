// Opening a text over a store and two lent slices of slots.
#![tactic(auto)]

ghost use Rattle.opening.specs.Opened.{Opens};

use crate::filling::{BLOCK, fill};
use measures::Measure;
use pieces::head::{Head, MarkRecord, TextMeasure, TextRecord};
use pieces::limits::{LEAST_SLOTS, limit};
use pieces::rows::PieceRow;
use plain::faults::TextFault;
use slots::arena::{Arena, lay_out};
use slots::records::Tree;
use stores::Store;

mod filling;

// The slots may have held anything. Of each slice only the watched slots are lent: at most 8,316.
pub fn open<S: Store, A: Measure<Item = u8>>(
    slots: &mut [TextRecord<A::Value>],
    marks: &mut [MarkRecord],
    store: &mut S,
) -> Result<Head, TextFault>
    ensures { Opens A.Measure.means S.Store.contents store.old store.new slots.old slots.new marks.old marks.new result }
{
    if slots.len() < LEAST_SLOTS || marks.len() < LEAST_SLOTS {
        return Err(TextFault::Slots);
    }
    let length = store.len();
    if length > BLOCK * limit(slots.len()) {
        return Err(TextFault::Pieces);
    }
    let free = lay_out(slots);
    let free_marks = lay_out(marks);
    let mut arena: Arena<PieceRow, TextMeasure<A>> = Arena { slots, free };
    let text = fill(&mut arena, store)?;
    Ok(Head {
        text,
        clip: Tree::Empty,
        free: arena.free,
        pieces: length.div_ceil(BLOCK),
        marks: Tree::Empty,
        free_marks,
        mark_count: 0,
    })
}
