// The clip's tree into the text's.
ghost use Rattle.edits.specs.Pasting.{PastedInto};

use crate::parting::part_at;
use concat::joins::concat;
use measures::Measure;
use pieces::head::{TextMeasure, TextRecord};
use pieces::rows::PieceRow;
use slots::records::{Link, Tree, Unsound};
use stores::Store;

pub fn paste_text<S: Store, A: Measure<Item = u8>>(
    slots: &mut [TextRecord<A::Value>],
    free: &mut Link,
    store: &mut S,
    text: Tree,
    clip: Tree,
    p: u32,
) -> Result<Tree, Unsound>
    ensures { PastedInto A.Measure.means S.Store.contents store.old store.new slots.old slots.new free.old free.new text clip p result }
{
    let parts = part_at::<S, A>(slots, free, store, text, p)?;
    let first = concat::<PieceRow, TextMeasure<A>>(slots, free, parts.left, parts.front, clip)?;
    concat::<PieceRow, TextMeasure<A>>(slots, free, first, parts.back, parts.right)
}
