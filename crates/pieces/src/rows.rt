// How a piece lies in a slot: plain numbers, which may be any.
ghost use Rattle.std.specs.Option.{MatchOption};
ghost use Rattle.std.specs.Result.{MatchResult};
ghost use Rattle.pieces.specs.Rows.{Makes, SamePiece};

use crate::piece::Piece;
use slots::records::Unsound;

#[derive(Clone, Copy)]
pub struct PieceRow {
    pub address: u32,
    pub length: u32,
}

impl TryFrom<PieceRow> for Piece {
    type Error = Unsound;

    ghost try_from_gives = { λ row made. MatchResult made (SamePiece row) (λ _. Makes row → ⊥) };

    fn try_from(row: PieceRow) -> Result<Piece, Unsound> {
        if !(1..=256).contains(&row.length) {
            return Err(Unsound);
        }
        row.address.checked_add(row.length).ok_or(Unsound)?;
        Ok(Piece {
            address: row.address,
            length: row.length as u16,
        })
    }
}

impl PieceRow {
    // The piece that the row makes, if it makes one.
    pub fn piece(&self) -> Option<Piece>
        ensures { MatchOption result (Makes self.now → ⊥) (SamePiece self.now) }
    {
        Piece::try_from(*self).ok()
    }
}
