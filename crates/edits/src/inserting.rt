// A piece into the text's tree.
ghost use Rattle.std.specs.Prelude.{◌≡◌};
ghost use Rattle.edits.specs.Inserting.{added_one, PutInto};

use crate::parting::part_at;
use concat::bundles::append;
use concat::joins::concat;
use measures::Measure;
use pieces::head::{TextMeasure, TextRecord};
use pieces::rows::PieceRow;
use slots::arena::put_leaf;
use slots::records::{Digit, Link, Tree, Unsound};
use stores::Store;

// At most one slot more.
pub fn append_one(part: Option<Digit>, more: Option<Digit>) -> Result<Option<Digit>, Unsound>
    ensures { result ≡ added_one part more }
{
    match more {
        None => Ok(part),
        Some(digit) => match digit {
            Digit::One(x) => append(part, x),
            _ => Err(Unsound),
        },
    }
}

// The row is put at the offset p, its value being known.
pub fn put_text<S: Store, A: Measure<Item = u8>>(
    slots: &mut [TextRecord<A::Value>],
    free: &mut Link,
    store: &mut S,
    text: Tree,
    p: u32,
    row: PieceRow,
    value: <TextMeasure<A> as Measure>::Value,
) -> Result<Tree, Unsound>
    ensures { PutInto A.Measure.means S.Store.contents store.old store.new slots.old slots.new free.old free.new text p row value result }
{
    let parts = part_at::<S, A>(slots, free, store, text, p)?;
    let i = put_leaf(slots, free, row, value)?;
    let some = append(parts.front, i)?;
    let all = append_one(some, parts.back)?;
    concat::<PieceRow, TextMeasure<A>>(slots, free, parts.left, all, parts.right)
}
