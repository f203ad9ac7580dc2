// What stands against the bracket at an offset.
ghost use Rattle.std.specs.Prelude.{◌≡◌, ◌<◌, cond, List, length};
ghost use Rattle.plain.specs.Brackets.{fitting};
ghost use Rattle.plain.specs.Machine.{text as «text_of»};
ghost use Rattle.plain.specs.Questions.{bracket_of_offset};
ghost use Rattle.plain.specs.declared.calls.Call.TheVariants.{BracketAt};
ghost use Rattle.measures.specs.declared.mark_totals.MarkRow.{MarkRow};
ghost use Rattle.measures.specs.declared.mark_totals.MarkTotals.{MarkTotals};
ghost use Rattle.slots.specs.declared.records.Record.{Record};
ghost use Rattle.pieces.specs.Asked.{ToldBy};
ghost use Rattle.asking.specs.Texts.{Answered};
ghost use Rattle.bracket_answers.specs.Spots.{after_open_of, before_close_of, match_of};

use crate::backward::open_of;
use crate::forward::close_of;
use crate::spot::{Other, find_spot};
use edits::doors::size_of;
use lexer::states::State;
use measures::Measure;
use pieces::head::{Head, TextRecord};
use plain::answers::{Bracket, Match};
use plain::faults::TextFault;
use slots::records::{Tree, Unsound};
use stores::Store;

// Whether an open and a close are (), [] or {}.
fn match_of(open: u8, close: u8) -> Match
    ensures { result ≡ match_of «open» close }
{
    match open {
        0x28 if close == 0x29 => Match::Fits,
        0x5B if close == 0x5D => Match::Fits,
        0x7B if close == 0x7D => Match::Fits,
        _ => Match::Crossed,
    }
}

// What stands against an open, by its close.
fn after_open(byte: u8, close: Option<Other>) -> Bracket
    ensures { result ≡ after_open_of byte close }
{
    match close {
        Some(other) => Bracket::Paired {
            partner: other.offset,
            fit: match_of(byte, other.byte),
        },
        None => Bracket::Alone,
    }
}

// And against a close, by its open.
fn before_close(byte: u8, open: Option<Other>) -> Bracket
    ensures { result ≡ before_close_of byte «open» }
{
    match open {
        Some(other) => Bracket::Paired {
            partner: other.offset,
            fit: match_of(other.byte, byte),
        },
        None => Bracket::Alone,
    }
}

pub fn bracket_in<S: Store, A: Measure<Item = u8>>(
    slots: &[TextRecord<A::Value>],
    store: &mut S,
    text: Tree,
    at: u32,
) -> Result<Option<Bracket>, Unsound>
    ensures { Answered S.Store.contents 768 A.Measure.means slots.now text (λ t. at < length t) (λ t. bracket_of_offset t at) store.old store.new result }
{
    let spot = find_spot::<S, A>(slots, store, text, at)?;
    match spot.stop.after.state {
        State::Open => {
            let close = close_of::<S, A>(slots, store, text, at, spot)?;
            Ok(Some(after_open(spot.stop.byte, close)))
        }
        State::Close => {
            let open = open_of(slots, store, text, spot)?;
            Ok(Some(before_close(spot.stop.byte, open)))
        }
        _ => Ok(None),
    }
}

// The partner of the bracket at an offset, or that it has none; nothing where there is no bracket.
pub fn bracket_at<S: Store, A: Measure<Item = u8>>(
    slots: &[TextRecord<A::Value>],
    store: &mut S,
    head: &Head,
    at: u32,
) -> Result<Option<Bracket>, TextFault>
    ensures { (ms : List (Record MarkRow MarkTotals)) → ToldBy A.Measure.means S.Store.contents slots.now ms head.now (BracketAt at) (λ m. bracket_of_offset («text_of» m) at) store.old store.new result }
{
    let size = size_of::<A>(slots, head.text)?;
    if at >= size {
        return Err(TextFault::Offset);
    }
    Ok(bracket_in::<S, A>(slots, store, head.text, at)?)
}
