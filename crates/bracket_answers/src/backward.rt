// From a close back to its open.
ghost use Rattle.std.specs.Prelude.{◌≡◌};
ghost use Rattle.lexer.specs.Numbers.{number_of};
ghost use Rattle.lexer.specs.declared.states.State.{State};
ghost use Rattle.bracket_answers.specs.Backward.{kept, OpenMet, OpenHeld, OpenTold};

use crate::spot::{Other, Spot};
use lexer::states::State;
use lexer::tokens::TokenRow;
use opens::parts::Held;
use opens::walk::walk_back;
use pieces::head::TextRecord;
use pieces::piece::Piece;
use pieces::rows::PieceRow;
use slots::records::{Tree, Unsound};
use stores::Store;

// A byte of a piece.
#[derive(Clone, Copy)]
pub struct Met {
    pub index: u32,
    pub byte: u8,
}

// The byte just read if it is an open and as many opens as `rank` wait after it, else the former one.
fn keep(met: Met, row: TokenRow, rank: u32, index: u32, byte: u8) -> Met
    ensures { result ≡ kept met row rank index byte }
{
    if row.state == State::Open && row.unmet == rank {
        Met { index, byte }
    } else {
        met
    }
}

// The open of that rank among those that wait at the end of the piece, counted from 1.
pub fn find_open<S: Store, N: Into<State>>(
    store: &mut S,
    piece: Piece,
    state: N,
    rank: u32,
) -> Result<Met, Unsound>
    ensures { (s : State) × N.converts state s × OpenMet S.Store.contents store.old store.new piece.address piece.length (number_of s) rank result }
{
    let begun = state.into();
    let mut row = begun.start();
    let mut met = Met { index: 0, byte: 0 };
    for i in 0..piece.length {
        let byte = store.read(piece.address + u32::from(i)).ok_or(Unsound)?;
        let next = row.and_byte(byte);
        met = keep(met, next, rank, u32::from(i), byte);
        row = next;
    }
    Ok(met)
}

// The open lies in the piece of the close, before it, or further back.
pub fn held_open<V: Copy>(
    slots: &[TextRecord<V>],
    text: Tree,
    spot: Spot,
) -> Result<Option<Held>, Unsound>
    ensures { OpenHeld slots.now text spot result }
{
    let before = spot.stop.before;
    if before.unmet == 0 {
        return walk_back(slots, text, spot.start.offset, before.strays);
    }
    let row = PieceRow {
        address: spot.row.address,
        length: spot.stop.index,
    };
    Ok(Some(Held {
        row,
        start: spot.start,
        rank: before.unmet,
    }))
}

pub fn open_of<S: Store, V: Copy>(
    slots: &[TextRecord<V>],
    store: &mut S,
    text: Tree,
    spot: Spot,
) -> Result<Option<Other>, Unsound>
    ensures { OpenTold S.Store.contents slots.now text spot store.old store.new result }
{
    let Some(held) = held_open(slots, text, spot)? else {
        return Ok(None);
    };
    let piece = Piece::try_from(held.row)?;
    let met = find_open(store, piece, held.start.state, held.rank)?;
    Ok(Some(Other {
        offset: held.start.offset.saturating_add(met.index),
        byte: met.byte,
    }))
}
