// A part of the text deleted: its slots go back to the chain.
ghost use Rattle.std.specs.Prelude.{◌≡◌};
ghost use Rattle.excisions.specs.Deleting.{one_part_of, FrontDropped, DroppedFrom, DeletedFrom};

use crate::ends::close_up;
use crate::spots::{Spot, open_at};
use measures::Measure;
use pieces::head::{TextMeasure, TextRecord};
use pieces::leaves::keep_ends;
use release::release;
use slots::records::{Digit, Link, Tree, Unsound};
use stores::Store;

// What is left of a tree, and how many of its leaves are gone; one that is cut counts as gone.
#[derive(Clone, Copy)]
pub struct Rest {
    pub back: Option<Digit>,
    pub right: Tree,
    pub gone: u32,
}

// A tree without its first n bytes.
pub fn drop_front<S: Store, A: Measure<Item = u8>>(
    slots: &mut [TextRecord<A::Value>],
    free: &mut Link,
    store: &mut S,
    tree: Tree,
    n: u32,
) -> Result<Rest, Unsound>
    ensures { FrontDropped A.Measure.means S.Store.contents store.old store.new slots.old slots.new free.old free.new tree n result }
{
    let Some(spot) = open_at::<A>(slots, free, tree, n)? else {
        let all = release(slots, free, tree)?;
        return Ok(Rest {
            back: None,
            right: Tree::Empty,
            gone: all,
        });
    };
    let ends = keep_ends::<S, TextMeasure<A>>(slots, free, store, spot.at, 0, spot.into)?;
    let before = release(slots, free, spot.left)?;
    Ok(Rest {
        back: ends.back,
        right: spot.right,
        gone: before.saturating_add(1),
    })
}

// What is left of a leaf and of the tree behind it.
#[derive(Clone, Copy)]
pub struct Dropped {
    pub front: Option<Digit>,
    pub rest: Rest,
}

// Without the n bytes from the spot on. Only what is kept of a cut leaf is read.
pub fn drop_from<S: Store, A: Measure<Item = u8>>(
    slots: &mut [TextRecord<A::Value>],
    free: &mut Link,
    store: &mut S,
    spot: Spot,
    n: u32,
) -> Result<Dropped, Unsound>
    ensures { DroppedFrom A.Measure.means S.Store.contents store.old store.new slots.old slots.new free.old free.new spot n result }
{
    let end = spot.into.saturating_add(n);
    if end <= spot.row.length {
        let ends = keep_ends::<S, TextMeasure<A>>(slots, free, store, spot.at, spot.into, end)?;
        return Ok(Dropped {
            front: ends.front,
            rest: Rest {
                back: ends.back,
                right: spot.right,
                gone: 1,
            },
        });
    }
    let first = keep_ends::<S, TextMeasure<A>>(
        slots,
        free,
        store,
        spot.at,
        spot.into,
        spot.row.length,
    )?;
    let rest = drop_front::<S, A>(slots, free, store, spot.right, end - spot.row.length)?;
    Ok(Dropped {
        front: first.front,
        rest: Rest {
            back: rest.back,
            right: rest.right,
            gone: rest.gone.saturating_add(1),
        },
    })
}

// How many leaves a part of at most one has.
pub fn one_part(part: Option<Digit>) -> u32
    ensures { result ≡ one_part_of part }
{
    u32::from(part.is_some())
}

// The text's tree, and the number of its pieces.
#[derive(Clone, Copy)]
pub struct Deleted {
    pub text: Tree,
    pub pieces: u32,
}

// The text without the bytes from `from` to `to`; `pieces` is the number of its pieces before.
pub fn delete_text<S: Store, A: Measure<Item = u8>>(
    slots: &mut [TextRecord<A::Value>],
    free: &mut Link,
    store: &mut S,
    text: Tree,
    pieces: u32,
    from: u32,
    to: u32,
) -> Result<Deleted, Unsound>
    ensures { DeletedFrom A.Measure.means S.Store.contents store.old store.new slots.old slots.new free.old free.new text pieces from to result }
{
    let spot = open_at::<A>(slots, free, text, from)?.ok_or(Unsound)?;
    let parts = drop_from::<S, A>(slots, free, store, spot, to.saturating_sub(from))?;
    let all = close_up::<A>(
        slots,
        free,
        spot.left,
        parts.front,
        parts.rest.back,
        parts.rest.right,
    )?;
    let kept = pieces.saturating_sub(parts.rest.gone);
    Ok(Deleted {
        text: all,
        pieces: kept
            .saturating_add(one_part(parts.front))
            .saturating_add(one_part(parts.rest.back)),
    })
}
