// From an open on to its close.
ghost use Rattle.std.specs.Prelude.{◌≡◌};
ghost use Rattle.bracket_answers.specs.Forward.{CloseReached, CloseTold};

use crate::spot::{Other, Spot};
use asking::finding::find_row_after;
use asking::parts::measure_part;
use edits::edges::{AtByte, at_byte};
use lexer::probes::StraysReached;
use lexer::states::State;
use lexer::tokens::TokenRow;
use measures::Measure;
use measures::probes::{OnLeft, OnRight};
use pieces::head::{TextMeasure, TextRecord};
use pieces::piece::Piece;
use pieces::rows::PieceRow;
use slots::records::{Tree, Unsound};
use stores::Store;
use token_questions::scan::{Goal, scan};

// The probe that turns yes at the piece of the first stray close.
pub type AtStray = OnLeft<OnRight<StraysReached>>;

// The first one after an open.
pub fn at_stray() -> AtStray
    ensures state { result.probe.probe.state ≡ State.Open }
    ensures count { result.probe.probe.count ≡ 1 }
{
    OnLeft {
        probe: OnRight {
            probe: StraysReached {
                state: State::Open,
                count: 1,
            },
        },
    }
}

// A row that holds the close, how far after the open it begins, and the row of what is read between.
#[derive(Clone, Copy)]
pub struct Reach {
    pub row: PieceRow,
    pub offset: u32,
    pub before: TokenRow,
}

// The close lies in the rest of the open's piece, or in a later one.
pub fn reach_close<S: Store, A: Measure<Item = u8>>(
    slots: &[TextRecord<A::Value>],
    store: &mut S,
    text: Tree,
    at: u32,
    rest: PieceRow,
) -> Result<Option<Reach>, Unsound>
    ensures { CloseReached S.Store.contents A.Measure.means slots.now text at rest store.old store.new result }
{
    let mut place = measure_part::<S, TextMeasure<A>>(store, rest)?;
    if State::Open.row_of(&place.left.right).strays > 0 {
        return Ok(Some(Reach {
            row: rest,
            offset: 0,
            before: State::Open.start(),
        }));
    }
    let found = find_row_after::<PieceRow, TextMeasure<A>, AtByte, AtStray>(
        slots,
        text,
        &at_byte(at),
        &at_stray(),
        &mut place,
    )?;
    Ok(found.map(|row| Reach {
        row,
        offset: place.left.left.bytes,
        before: State::Open.row_of(&place.left.right),
    }))
}

pub fn close_of<S: Store, A: Measure<Item = u8>>(
    slots: &[TextRecord<A::Value>],
    store: &mut S,
    text: Tree,
    at: u32,
    spot: Spot,
) -> Result<Option<Other>, Unsound>
    ensures { CloseTold S.Store.contents A.Measure.means slots.now text at spot store.old store.new result }
{
    let next = spot.stop.index.saturating_add(1);
    let rest = PieceRow {
        address: spot.row.address.saturating_add(next),
        length: spot.row.length.saturating_sub(next),
    };
    let Some(reach) = reach_close::<S, A>(slots, store, text, at, rest)? else {
        return Ok(None);
    };
    let piece = Piece::try_from(reach.row)?;
    let stop = scan(store, piece, reach.before, Goal::Strays(1))?;
    let offset = at.saturating_add(1).saturating_add(reach.offset);
    Ok(Some(Other {
        offset: offset.saturating_add(stop.index),
        byte: stop.byte,
    }))
}
