// A part of the text cut: a tree of its own in the same slots.
ghost use Rattle.excisions.specs.Cutting.{TakenFrom, CutOut};

use crate::ends::close_up;
use crate::spots::{Spot, open_at};
use concat::joins::extend;
use edits::parting::part_at;
use measures::Measure;
use pieces::head::{TextMeasure, TextRecord};
use pieces::leaves::{keep_ends, put_part};
use pieces::rows::PieceRow;
use slots::records::{Digit, Link, Side, Tree, Unsound};
use stores::Store;

// A leaf and the tree behind it in three: what is before the part that is taken out, that part, and what is behind it.
#[derive(Clone, Copy)]
pub struct Taken {
    pub front: Option<Digit>,
    pub first: Option<Digit>,
    pub middle: Tree,
    pub last: Option<Digit>,
    pub back: Option<Digit>,
    pub right: Tree,
}

// The n bytes from the spot on taken out. Each byte of a cut leaf is read once.
pub fn take_from<S: Store, A: Measure<Item = u8>>(
    slots: &mut [TextRecord<A::Value>],
    free: &mut Link,
    store: &mut S,
    spot: Spot,
    n: u32,
) -> Result<Taken, Unsound>
    ensures { TakenFrom A.Measure.means S.Store.contents store.old store.new slots.old slots.new free.old free.new spot n result }
{
    let end = spot.into.saturating_add(n);
    if end <= spot.row.length {
        let ends = keep_ends::<S, TextMeasure<A>>(slots, free, store, spot.at, spot.into, end)?;
        let row = PieceRow {
            address: spot.row.address.saturating_add(spot.into),
            length: n,
        };
        let only = put_part::<S, TextMeasure<A>>(slots, free, store, row)?;
        return Ok(Taken {
            front: ends.front,
            first: only,
            middle: Tree::Empty,
            last: None,
            back: ends.back,
            right: spot.right,
        });
    }
    let ends = keep_ends::<S, TextMeasure<A>>(slots, free, store, spot.at, spot.into, spot.into)?;
    let parts = part_at::<S, A>(slots, free, store, spot.right, end - spot.row.length)?;
    Ok(Taken {
        front: ends.front,
        first: ends.back,
        middle: parts.left,
        last: parts.front,
        back: parts.back,
        right: parts.right,
    })
}

// The text's tree without a part, and the tree of that part.
#[derive(Clone, Copy)]
pub struct CutText {
    pub text: Tree,
    pub clip: Tree,
}

// The bytes from `from` to `to` cut out of the text.
pub fn cut_text<S: Store, A: Measure<Item = u8>>(
    slots: &mut [TextRecord<A::Value>],
    free: &mut Link,
    store: &mut S,
    text: Tree,
    from: u32,
    to: u32,
) -> Result<CutText, Unsound>
    ensures { CutOut A.Measure.means S.Store.contents store.old store.new slots.old slots.new free.old free.new text from to result }
{
    let Some(spot) = open_at::<A>(slots, free, text, from)? else {
        return Err(Unsound);
    };
    let parts = take_from::<S, A>(slots, free, store, spot, to.saturating_sub(from))?;
    let some = extend::<PieceRow, TextMeasure<A>>(
        slots,
        free,
        Side::Back,
        parts.middle,
        parts.last,
    )?;
    let clip = extend::<PieceRow, TextMeasure<A>>(slots, free, Side::Front, some, parts.first)?;
    let text = close_up::<A>(slots, free, spot.left, parts.front, parts.back, parts.right)?;
    Ok(CutText { text, clip })
}
