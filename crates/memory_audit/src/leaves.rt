// What makes a leaf good: a piece lies inside the store, and any mark may lie anywhere.
ghost use Rattle.std.specs.Prelude.{◌≡◌, MatchOption};
ghost use Rattle.pieces.specs.Rows.{bytes_of, Good};
ghost use Rattle.pieces.specs.Sound.{itself};
ghost use Rattle.memory_audit.specs.Leaves.{InStore, PieceChecked, PieceRead};

use audit::leaves::LeafCheck;
use measures::Measure;
use measures::mark_totals::{MarkRow, MarkTotals};
use pieces::measuring::measure_piece;
use pieces::piece::Piece;
use pieces::rows::PieceRow;
use slots::records::Unsound;
use stores::Store;

// The piece that the row makes, if it lies inside the store.
fn piece_in<S: Store>(store: &S, row: PieceRow) -> Option<Piece>
    ensures { MatchOption result (Good (S.Store.contents store.now).bytes row → ⊥) (InStore (S.Store.contents store.now).bytes row) }
{
    let piece = row.piece()?;
    let end = piece.address + u32::from(piece.length);
    (end <= store.len()).then_some(piece)
}

// Reads a good piece, each byte once, and no other.
fn check_piece<S: Store, M: Measure<Item = u8>>(
    store: &mut S,
    row: PieceRow,
    value: &M::Value,
) -> Result<u64, Unsound>
    ensures { PieceChecked M.Measure.means S.Store.contents store.old row value.now result store.new }
{
    let piece = piece_in(store, row).ok_or(Unsound)?;
    let found = measure_piece::<S, M>(store, piece)?;
    if M::same(&found, value) {
        Ok(u64::from(piece.length))
    } else {
        Err(Unsound)
    }
}

// Takes the pieces that lie inside the store.
#[derive(Clone, Copy)]
pub struct InsideStore;

impl<S: Store, M: Measure<Item = u8>> LeafCheck<PieceRow, M, S> for InsideStore {
    ghost items = { λ s row. bytes_of (S.Store.contents s).bytes row };

    ghost good = { λ s row. Good (S.Store.contents s).bytes row };

    ghost checks = { PieceRead S.Store.contents };

    fn check(store: &mut S, row: PieceRow, value: &M::Value) -> Result<u64, Unsound> {
        check_piece::<S, M>(store, row, value)
    }
}

// Takes every mark.
#[derive(Clone, Copy)]
pub struct AnyMark;

impl LeafCheck<MarkRow, MarkTotals, ()> for AnyMark {
    ghost items = { λ _ row. itself row };

    ghost good = { λ _ _. Unit {0} };

    ghost checks = { λ s _ s'. s' ≡ s };

    fn check(_: &mut (), row: MarkRow, value: &MarkTotals) -> Result<u64, Unsound> {
        if MarkTotals::same(&MarkTotals::one(row), value) {
            Ok(u64::from(row.gap) + 1)
        } else {
            Err(Unsound)
        }
    }
}
