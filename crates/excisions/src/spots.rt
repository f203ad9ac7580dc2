// Where an offset lies in the text's tree.
ghost use Rattle.excisions.specs.Spots.{OpenedAt};

use edits::edges::AtByte;
use measures::Measure;
use measures::probes::{OnLeft, PastByte};
use pieces::head::{TextMeasure, TextRecord};
use pieces::rows::PieceRow;
use slots::reading::row_at;
use slots::records::{Link, Tree, Unsound};
use split::descent::split;

// The leaf in which an offset lies, its row, how many bytes of it are before the offset, and the trees on both sides of it.
#[derive(Clone, Copy)]
pub struct Spot {
    pub left: Tree,
    pub at: u16,
    pub row: PieceRow,
    pub into: u32,
    pub right: Tree,
}

// None for an offset at or past the end. Reads no byte.
pub fn open_at<A: Measure<Item = u8>>(
    slots: &mut [TextRecord<A::Value>],
    free: &mut Link,
    tree: Tree,
    p: u32,
) -> Result<Option<Spot>, Unsound>
    ensures { OpenedAt A.Measure.means slots.old slots.new free.old free.new tree p result }
{
    let mut place = TextMeasure::<A>::empty();
    let probe = OnLeft {
        probe: OnLeft {
            probe: PastByte { at: p },
        },
    };
    let found = split::<PieceRow, TextMeasure<A>, AtByte>(slots, free, tree, &probe, &mut place)?;
    let Some(halves) = found else {
        return Ok(None);
    };
    let row = row_at(slots, halves.at)?;
    Ok(Some(Spot {
        left: halves.left,
        at: halves.at,
        row,
        into: p.saturating_sub(place.left.left.bytes),
        right: halves.right,
    }))
}
