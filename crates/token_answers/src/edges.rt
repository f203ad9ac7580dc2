// Where tokens begin, and how many.
ghost use Rattle.std.specs.Prelude.{◌≡◌, ◌+◌, ◌<◌, length, take};
ghost use Rattle.lexer.specs.Reading.{beginnings};
ghost use Rattle.asking.specs.Texts.{Answered};
ghost use Rattle.token_answers.specs.Edges.{EdgeFound};

use asking::finding::find_row;
use edits::edges::{AtByte, at_byte};
use lexer::probes::TokensBegun;
use lexer::states::State;
use lexer::tokens::whole;
use measures::Measure;
use measures::probes::{OnLeft, OnRight};
use pieces::head::{TextMeasure, TextRecord};
use pieces::piece::Piece;
use pieces::rows::PieceRow;
use slots::records::{Tree, Unsound};
use stores::Store;
use token_questions::scan::{Goal, scan};

// Finds the piece in which a token begins.
pub type AtToken = OnLeft<OnRight<TokensBegun>>;

pub fn at_token(count: u32) -> AtToken
    ensures { result.probe.probe.count ≡ count }
{
    OnLeft {
        probe: OnRight {
            probe: TokensBegun { count },
        },
    }
}

// The offset at which a token begins, or the end of the text, and the state in which the text before it ends. Both are
// read whether it begins or not, so the flag stays beside them.
#[derive(Clone, Copy)]
pub struct TokenEdge {
    pub at: u32,
    pub state: State,
    pub begins: bool,
}

// Where the token with this number begins; the end of the text, if fewer begin.
pub fn token_edge<S: Store, A: Measure<Item = u8>>(
    slots: &[TextRecord<A::Value>],
    store: &mut S,
    text: Tree,
    number: u32,
) -> Result<TokenEdge, Unsound>
    ensures { EdgeFound S.Store.contents A.Measure.means slots.now text number store.old store.new result }
{
    let mut before = TextMeasure::<A>::empty();
    let found = find_row::<PieceRow, TextMeasure<A>, AtToken>(
        slots,
        text,
        &at_token(number),
        &mut before,
    )?;
    let bytes = before.left.left.bytes;
    let read = whole(&before.left.right);
    let Some(row) = found else {
        return Ok(TokenEdge {
            at: bytes,
            state: read.state,
            begins: false,
        });
    };
    let piece = Piece::try_from(row)?;
    let stop = scan(store, piece, read, Goal::Tokens(number))?;
    Ok(TokenEdge {
        at: bytes.saturating_add(stop.index),
        state: stop.before.state,
        begins: true,
    })
}

// The number of the token that an offset lies in: how many tokens begin up to it and at it.
pub fn number_at<S: Store, A: Measure<Item = u8>>(
    slots: &[TextRecord<A::Value>],
    store: &mut S,
    text: Tree,
    at: u32,
) -> Result<u32, Unsound>
    ensures { Answered S.Store.contents 256 A.Measure.means slots.now text (λ t. at < length t) (λ t. beginnings 0 (take (at + 1) t)) store.old store.new result }
{
    let mut before = TextMeasure::<A>::empty();
    let found = find_row::<PieceRow, TextMeasure<A>, AtByte>(
        slots,
        text,
        &at_byte(at),
        &mut before,
    )?;
    let inside = at.saturating_sub(before.left.left.bytes);
    let read = whole(&before.left.right);
    let row = found.ok_or(Unsound)?;
    let piece = Piece::try_from(row)?;
    let stop = scan(store, piece, read, Goal::Bytes(inside.saturating_add(1)))?;
    Ok(stop.after.tokens)
}
