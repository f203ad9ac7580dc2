// Leaves of a text: making one of a part of the store, and cutting one.
ghost use Rattle.pieces.specs.Leaves.{PartPut, EndsKept};

use crate::measuring::measure_row;
use crate::rows::PieceRow;
use measures::Measure;
use slots::arena::{give_slot, put_leaf};
use slots::reading::row_at;
use slots::records::{Digit, Link, Record, Unsound};
use stores::Store;

// A leaf of the row, measured from the store; none if the row is empty.
pub fn put_part<S: Store, M: Measure<Item = u8>>(
    slots: &mut [Record<PieceRow, M::Value>],
    free: &mut Link,
    store: &mut S,
    row: PieceRow,
) -> Result<Option<Digit>, Unsound>
    ensures { PartPut M.Measure.means S.Store.contents store.old store.new slots.old slots.new free.old free.new row result }
{
    if row.length == 0 {
        return Ok(None);
    }
    let value = measure_row::<S, M>(store, row)?;
    let i = put_leaf(slots, free, row, value)?;
    Ok(Some(Digit::One(i)))
}

// What is left of a leaf at either end.
#[derive(Clone, Copy)]
pub struct Ends {
    pub front: Option<Digit>,
    pub back: Option<Digit>,
}

// Keeps the first k bytes of the leaf in slot i and those from j on. Only what is cut is measured anew.
pub fn keep_ends<S: Store, M: Measure<Item = u8>>(
    slots: &mut [Record<PieceRow, M::Value>],
    free: &mut Link,
    store: &mut S,
    i: u16,
    k: u32,
    j: u32,
) -> Result<Ends, Unsound>
    ensures { EndsKept M.Measure.means S.Store.contents store.old store.new slots.old slots.new free.old free.new i k j result }
{
    let row = row_at(slots, i)?;
    if j == 0 {
        return Ok(Ends {
            front: None,
            back: Some(Digit::One(i)),
        });
    }
    if k >= row.length {
        return Ok(Ends {
            front: Some(Digit::One(i)),
            back: None,
        });
    }
    let first = PieceRow {
        address: row.address,
        length: k,
    };
    let last = PieceRow {
        address: row.address.saturating_add(j),
        length: row.length.saturating_sub(j),
    };
    give_slot(slots, free, i)?;
    let front = put_part::<S, M>(slots, free, store, first)?;
    let back = put_part::<S, M>(slots, free, store, last)?;
    Ok(Ends { front, back })
}
