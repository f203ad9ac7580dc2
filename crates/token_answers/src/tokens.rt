// Tokens: the one that an offset lies in, and the one with a number.
ghost use Rattle.std.specs.Prelude.{◌<◌, List, length};
ghost use Rattle.plain.specs.Machine.{text as «text_of»};
ghost use Rattle.plain.specs.Questions.{token_of_offset, token_of_number};
ghost use Rattle.plain.specs.declared.calls.Call.TheVariants.{TokenAt, TokenNumber};
ghost use Rattle.measures.specs.declared.mark_totals.MarkRow.{MarkRow};
ghost use Rattle.measures.specs.declared.mark_totals.MarkTotals.{MarkTotals};
ghost use Rattle.slots.specs.declared.records.Record.{Record};
ghost use Rattle.pieces.specs.Asked.{ToldBy};
ghost use Rattle.asking.specs.Texts.{Answered};

use crate::edges::{number_at, token_edge};
use crate::words::kind_between;
use edits::doors::size_of;
use measures::Measure;
use pieces::head::{Head, TextRecord};
use plain::answers::Token;
use plain::faults::TextFault;
use slots::records::{Tree, Unsound};
use stores::Store;

// The token with this number, counted from 1. It ends where the next one begins.
pub fn token_numbered<S: Store, A: Measure<Item = u8>>(
    slots: &[TextRecord<A::Value>],
    store: &mut S,
    text: Tree,
    number: u32,
) -> Result<Option<Token>, Unsound>
    ensures { Answered S.Store.contents 517 A.Measure.means slots.now text (λ _. Unit {0}) (λ t. token_of_number t number) store.old store.new result }
{
    if number == 0 {
        return Ok(None);
    }
    let from = token_edge::<S, A>(slots, store, text, number)?;
    if !from.begins {
        return Ok(None);
    }
    let until = token_edge::<S, A>(slots, store, text, number.saturating_add(1))?;
    let kind = kind_between::<S, A, _>(slots, store, text, from.at, until.at, until.state)?;
    Ok(Some(Token {
        start: from.at,
        end: until.at,
        number,
        kind,
    }))
}

// The token that an offset inside the text lies in.
pub fn token_around<S: Store, A: Measure<Item = u8>>(
    slots: &[TextRecord<A::Value>],
    store: &mut S,
    text: Tree,
    at: u32,
) -> Result<Option<Token>, Unsound>
    ensures { Answered S.Store.contents 773 A.Measure.means slots.now text (λ t. at < length t) (λ t. token_of_offset t at) store.old store.new result }
{
    let number = number_at::<S, A>(slots, store, text, at)?;
    token_numbered::<S, A>(slots, store, text, number)
}

pub fn token_at<S: Store, A: Measure<Item = u8>>(
    slots: &[TextRecord<A::Value>],
    store: &mut S,
    head: &Head,
    at: u32,
) -> Result<Option<Token>, TextFault>
    ensures { (ms : List (Record MarkRow MarkTotals)) → ToldBy A.Measure.means S.Store.contents slots.now ms head.now (TokenAt at) (λ m. token_of_offset («text_of» m) at) store.old store.new result }
{
    let size = size_of::<A>(slots, head.text)?;
    if at >= size {
        return Err(TextFault::Offset);
    }
    Ok(token_around::<S, A>(slots, store, head.text, at)?)
}

// Token 0 is none.
pub fn token_number<S: Store, A: Measure<Item = u8>>(
    slots: &[TextRecord<A::Value>],
    store: &mut S,
    head: &Head,
    number: u32,
) -> Result<Option<Token>, TextFault>
    ensures { (ms : List (Record MarkRow MarkTotals)) → ToldBy A.Measure.means S.Store.contents slots.now ms head.now (TokenNumber number) (λ m. token_of_number («text_of» m) number) store.old store.new result }
{
    Ok(token_numbered::<S, A>(slots, store, head.text, number)?)
}
