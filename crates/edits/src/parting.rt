// Taking the text's tree apart at an offset.
ghost use Rattle.edits.specs.Parting.{PartedAt};

use crate::edges::AtByte;
use measures::Measure;
use measures::probes::{OnLeft, PastByte};
use pieces::head::{TextMeasure, TextRecord};
use pieces::leaves::keep_ends;
use pieces::rows::PieceRow;
use slots::records::{Digit, Link, Tree, Unsound};
use split::descent::split;
use stores::Store;

// What lies before an offset and what lies after it; a piece with the offset inside is halved.
#[derive(Clone, Copy)]
pub struct Parts {
    pub left: Tree,
    pub front: Option<Digit>,
    pub back: Option<Digit>,
    pub right: Tree,
}

pub fn part_at<S: Store, A: Measure<Item = u8>>(
    slots: &mut [TextRecord<A::Value>],
    free: &mut Link,
    store: &mut S,
    text: Tree,
    p: u32,
) -> Result<Parts, Unsound>
    ensures { PartedAt A.Measure.means S.Store.contents store.old store.new slots.old slots.new free.old free.new text p result }
{
    let mut place = TextMeasure::<A>::empty();
    let probe = OnLeft {
        probe: OnLeft {
            probe: PastByte { at: p },
        },
    };
    let found = split::<PieceRow, TextMeasure<A>, AtByte>(slots, free, text, &probe, &mut place)?;
    match found {
        None => Ok(Parts {
            left: text,
            front: None,
            back: None,
            right: Tree::Empty,
        }),
        Some(halves) => {
            let k = p.saturating_sub(place.left.left.bytes);
            let ends = keep_ends::<S, TextMeasure<A>>(slots, free, store, halves.at, k, k)?;
            Ok(Parts {
                left: halves.left,
                front: ends.front,
                back: ends.back,
                right: halves.right,
            })
        }
    }
}
