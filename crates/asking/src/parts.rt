// The value of a part of the store, and of a piece.
ghost use Rattle.std.specs.Prelude.{◌≤◌, min, MatchOption};
ghost use Rattle.asking.specs.Texts.{PartOf, PartMeasured, SliceMeasured};

use measures::Measure;
use pieces::measuring::{measure_piece, measure_row};
use pieces::piece::Piece;
use pieces::rows::PieceRow;
use slots::records::Unsound;
use stores::Store;

// The part may be empty, and is no piece then, which `measure_slice` would refuse.
pub fn measure_part<S: Store, M: Measure<Item = u8>>(
    store: &mut S,
    part: PieceRow,
) -> Result<M::Value, Unsound>
    ensures { PartMeasured S.Store.contents M.Measure.means store.old store.new part result }
{
    if part.length == 0 {
        return Ok(M::empty());
    }
    measure_row::<S, M>(store, part)
}

// What lies in a piece from its byte `from` up to its byte `to`, or to its end if that comes first. None if nothing does.
pub fn part_of(piece: Piece, from: u32, to: u32) -> Option<Piece>
    ensures { MatchOption result (min to piece.length ≤ from) (PartOf piece from to) }
{
    let end = to.min(u32::from(piece.length));
    if from >= end {
        return None;
    }
    Some(Piece {
        address: piece.address + from,
        length: (end - from) as u16,
    })
}

// Reads each byte of the part once. A row that makes no piece has no value.
pub fn measure_slice<S: Store, M: Measure<Item = u8>>(
    store: &mut S,
    row: PieceRow,
    from: u32,
    to: u32,
) -> Result<M::Value, Unsound>
    ensures { SliceMeasured S.Store.contents M.Measure.means store.old store.new row from to result }
{
    let piece = Piece::try_from(row)?;
    match part_of(piece, from, to) {
        Some(part) => measure_piece::<S, M>(store, part),
        None => Ok(M::empty()),
    }
}
