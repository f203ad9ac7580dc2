// The value of a piece, read from its store.
ghost use Rattle.pieces.specs.Rows.{Measured, RowMeasured};

use crate::piece::Piece;
use crate::rows::PieceRow;
use measures::Measure;
use slots::records::Unsound;
use stores::Store;

// Reads each byte of the piece once.
pub fn measure_piece<S: Store, M: Measure<Item = u8>>(
    store: &mut S,
    piece: Piece,
) -> Result<M::Value, Unsound>
    ensures { Measured M.Measure.means S.Store.contents store.old piece.address piece.length result store.new }
{
    let mut value = M::empty();
    for i in 0..piece.length {
        let byte = store.read(piece.address + u32::from(i)).ok_or(Unsound)?;
        M::add(&mut value, byte);
    }
    Ok(value)
}

// A row that makes no piece inside the store has no value.
pub fn measure_row<S: Store, M: Measure<Item = u8>>(
    store: &mut S,
    row: PieceRow,
) -> Result<M::Value, Unsound>
    ensures { RowMeasured M.Measure.means S.Store.contents store.old row result store.new }
{
    let piece = Piece::try_from(row)?;
    measure_piece::<S, M>(store, piece)
}
