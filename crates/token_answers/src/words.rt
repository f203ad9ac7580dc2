// The kind of a token.
ghost use Rattle.std.specs.Prelude.{◌<◌, ◌≤◌, length, slice_index};
ghost use Rattle.plain.specs.Lists.{slice};
ghost use Rattle.plain.specs.Tokens.{kind_of};
ghost use Rattle.lexer.specs.Numbers.{number_of};
ghost use Rattle.lexer.specs.declared.states.State.{State};
ghost use Rattle.asking.specs.Texts.{Answered};

use asking::finding::find_row;
use edits::edges::{AtByte, at_byte};
use lexer::states::State;
use measures::Measure;
use pieces::head::{TextMeasure, TextRecord};
use pieces::rows::PieceRow;
use plain::answers::Kind;
use slots::records::{Tree, Unsound};
use stores::Store;

// The byte at an offset, by one read.
pub fn byte_at<S: Store, A: Measure<Item = u8>>(
    slots: &[TextRecord<A::Value>],
    store: &mut S,
    text: Tree,
    at: u32,
) -> Result<u8, Unsound>
    ensures { Answered S.Store.contents 1 A.Measure.means slots.now text (λ t. at < length t) (λ t. slice_index t at) store.old store.new result }
{
    let mut before = TextMeasure::<A>::empty();
    let found = find_row::<PieceRow, TextMeasure<A>, AtByte>(
        slots,
        text,
        &at_byte(at),
        &mut before,
    )?;
    let inside = at.saturating_sub(before.left.left.bytes);
    let row = found.ok_or(Unsound)?;
    store
        .read(row.address.saturating_add(inside))
        .ok_or(Unsound)
}

// The kind of the token from `start` up to `end` that ends in this state. Only a word of at most five bytes
// may be a key and is read again, each byte by a search of its own, since it may lie in several pieces.
pub fn kind_between<S: Store, A: Measure<Item = u8>, N: Into<State>>(
    slots: &[TextRecord<A::Value>],
    store: &mut S,
    text: Tree,
    start: u32,
    end: u32,
    state: N,
) -> Result<Kind, Unsound>
    ensures { (s : State) × N.converts state s × Answered S.Store.contents 5 A.Measure.means slots.now text (λ t. end ≤ length t) (λ t. kind_of (number_of s) (slice t start end)) store.old store.new result }
{
    let last = state.into();
    let size = end.saturating_sub(start);
    if last != State::Word || size > 5 {
        return Ok(last.kind_of(&[]));
    }
    let mut word = [0; 5];
    for i in 0..size {
        let byte = byte_at::<S, A>(slots, store, text, start.saturating_add(i))?;
        word[i as usize] = byte;
    }
    Ok(last.kind_of(&word[0..size as usize]))
}
