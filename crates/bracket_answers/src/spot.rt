// The byte at an offset of a text, with what is read before it in its piece.
ghost use Rattle.bracket_answers.specs.Spots.{SpotFound};

use asking::finding::find_row;
use edits::edges::{AtByte, at_byte};
use lexer::tokens::whole;
use measures::Measure;
use opens::parts::Start;
use pieces::head::{TextMeasure, TextRecord};
use pieces::piece::Piece;
use pieces::rows::PieceRow;
use slots::records::{Tree, Unsound};
use stores::Store;
use token_questions::scan::{Goal, Stop, scan};

// The row that a byte lies in, where that begins, and the byte with the rows of what is read in it before and after.
#[derive(Clone, Copy)]
pub struct Spot {
    pub row: PieceRow,
    pub start: Start,
    pub stop: Stop,
}

// A bracket that stands against another.
#[derive(Clone, Copy)]
pub struct Other {
    pub offset: u32,
    pub byte: u8,
}

pub fn find_spot<S: Store, A: Measure<Item = u8>>(
    slots: &[TextRecord<A::Value>],
    store: &mut S,
    text: Tree,
    at: u32,
) -> Result<Spot, Unsound>
    ensures { SpotFound S.Store.contents A.Measure.means slots.now text at store.old store.new result }
{
    let mut before = TextMeasure::<A>::empty();
    let found = find_row::<PieceRow, TextMeasure<A>, AtByte>(
        slots,
        text,
        &at_byte(at),
        &mut before,
    )?;
    let row = found.ok_or(Unsound)?;
    let piece = Piece::try_from(row)?;
    let start = Start {
        offset: before.left.left.bytes,
        state: whole(&before.left.right).state,
    };
    let count = at.saturating_sub(start.offset).saturating_add(1);
    let stop = scan(store, piece, start.state.start(), Goal::Bytes(count))?;
    Ok(Spot { row, start, stop })
}
