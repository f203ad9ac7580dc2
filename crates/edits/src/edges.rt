// Where an offset falls among the pieces.
ghost use Rattle.std.specs.Prelude.{◌≡◌};
ghost use Rattle.edits.specs.Edges.{EdgeFound};

use measures::Measure;
use measures::probes::{OnLeft, PastByte};
use pieces::head::{TextMeasure, TextRecord};
use pieces::rows::PieceRow;
use seek::search::search;
use slots::reading::row_at;
use slots::records::{Tree, Unsound};

// The probe that turns yes at the piece in which an offset lies.
pub type AtByte = OnLeft<OnLeft<PastByte>>;

pub fn at_byte(at: u32) -> AtByte
    ensures { result.probe.probe.at ≡ at }
{
    OnLeft {
        probe: OnLeft {
            probe: PastByte { at },
        },
    }
}

// The piece in which an offset lies: where it starts, and its length.
#[derive(Clone, Copy)]
pub struct Edge {
    pub start: u32,
    pub length: u32,
}

// None for an offset at or past the end. Reads no byte.
pub fn edge_at<A: Measure<Item = u8>>(
    slots: &[TextRecord<A::Value>],
    text: Tree,
    p: u32,
) -> Result<Option<Edge>, Unsound>
    ensures { EdgeFound A.Measure.means slots.now text p result }
{
    let mut place = TextMeasure::<A>::empty();
    let found = search::<PieceRow, TextMeasure<A>, AtByte>(slots, text, &at_byte(p), &mut place)?;
    let Some(i) = found else {
        return Ok(None);
    };
    Ok(Some(Edge {
        start: place.left.left.bytes,
        length: row_at(slots, i)?.length,
    }))
}
