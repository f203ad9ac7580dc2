// Lines: the one that an offset lies in, and where one starts.
ghost use Rattle.std.specs.Prelude.{◌≡◌, ◌+◌, ◌≤◌, List, length, take};
ghost use Rattle.plain.specs.Lists.{count};
ghost use Rattle.plain.specs.Tokens.{feed};
ghost use Rattle.plain.specs.Machine.{text as «text_of»};
ghost use Rattle.plain.specs.Questions.{line_of_offset, start_of_line};
ghost use Rattle.plain.specs.declared.calls.Call.TheVariants.{LineOf, StartOf};
ghost use Rattle.measures.specs.declared.mark_totals.MarkRow.{MarkRow};
ghost use Rattle.measures.specs.declared.mark_totals.MarkTotals.{MarkTotals};
ghost use Rattle.slots.specs.declared.records.Record.{Record};
ghost use Rattle.pieces.specs.Asked.{ToldBy};
ghost use Rattle.asking.specs.Texts.{Answered};

use crate::feeds::find_feed;
use asking::finding::find_row;
use asking::parts::measure_slice;
use edits::doors::size_of;
use edits::edges::{AtByte, at_byte};
use measures::Measure;
use measures::probes::{FeedsReached, OnLeft};
use measures::totals::Totals;
use pieces::head::{Head, TextMeasure, TextRecord};
use pieces::piece::Piece;
use pieces::rows::PieceRow;
use plain::answers::Place;
use plain::faults::TextFault;
use slots::records::{Tree, Unsound};
use stores::Store;

// Finds the piece in which a line feed lies.
pub type AtFeed = OnLeft<OnLeft<FeedsReached>>;

pub fn at_feed(count: u32) -> AtFeed
    ensures { result.probe.probe.count ≡ count }
{
    OnLeft {
        probe: OnLeft {
            probe: FeedsReached { count },
        },
    }
}

// How many line feeds lie before the offset.
pub fn feeds_before<S: Store, A: Measure<Item = u8>>(
    slots: &[TextRecord<A::Value>],
    store: &mut S,
    text: Tree,
    at: u32,
) -> Result<u32, Unsound>
    ensures { Answered S.Store.contents 256 A.Measure.means slots.now text (λ _. Unit {0}) (λ t. count feed (take at t)) store.old store.new result }
{
    let mut before = TextMeasure::<A>::empty();
    let found = find_row::<PieceRow, TextMeasure<A>, AtByte>(
        slots,
        text,
        &at_byte(at),
        &mut before,
    )?;
    let totals = before.left.left;
    let Some(row) = found else {
        return Ok(totals.feeds);
    };
    let inside = at.saturating_sub(totals.bytes);
    let here = measure_slice::<S, Totals>(store, row, 0, inside)?;
    Ok(totals.feeds.saturating_add(here.feeds))
}

// The offset just past the line feed with this number, counted from 1.
pub fn after_feed<S: Store, A: Measure<Item = u8>>(
    slots: &[TextRecord<A::Value>],
    store: &mut S,
    text: Tree,
    number: u32,
) -> Result<Option<u32>, Unsound>
    ensures { Answered S.Store.contents 256 A.Measure.means slots.now text (λ _. 1 ≤ number) (λ t. start_of_line t (number + 1)) store.old store.new result }
{
    let mut before = TextMeasure::<A>::empty();
    let found = find_row::<PieceRow, TextMeasure<A>, AtFeed>(
        slots,
        text,
        &at_feed(number),
        &mut before,
    )?;
    let totals = before.left.left;
    let Some(row) = found else {
        return Ok(None);
    };
    let piece = Piece::try_from(row)?;
    let inside = find_feed(store, piece, number.saturating_sub(totals.feeds))?;
    Ok(Some(totals.bytes.saturating_add(inside)))
}

// Where the line with this number starts, counted from 1.
pub fn line_start<S: Store, A: Measure<Item = u8>>(
    slots: &[TextRecord<A::Value>],
    store: &mut S,
    text: Tree,
    line: u32,
) -> Result<Option<u32>, Unsound>
    ensures { Answered S.Store.contents 256 A.Measure.means slots.now text (λ _. Unit {0}) (λ t. start_of_line t line) store.old store.new result }
{
    match line {
        0 => Ok(None),
        1 => Ok(Some(0)),
        _ => after_feed::<S, A>(slots, store, text, line - 1),
    }
}

// The line that an offset lies in, and how many bytes of the line are before it.
pub fn place_of<S: Store, A: Measure<Item = u8>>(
    slots: &[TextRecord<A::Value>],
    store: &mut S,
    text: Tree,
    at: u32,
) -> Result<Place, Unsound>
    ensures { Answered S.Store.contents 512 A.Measure.means slots.now text (λ t. at ≤ length t) (λ t. line_of_offset t at) store.old store.new result }
{
    let feeds = feeds_before::<S, A>(slots, store, text, at)?;
    let line = feeds.saturating_add(1);
    let start = line_start::<S, A>(slots, store, text, line)?.ok_or(Unsound)?;
    Ok(Place {
        line,
        column: at.saturating_sub(start),
    })
}

pub fn line_of<S: Store, A: Measure<Item = u8>>(
    slots: &[TextRecord<A::Value>],
    store: &mut S,
    head: &Head,
    at: u32,
) -> Result<Place, TextFault>
    ensures { (ms : List (Record MarkRow MarkTotals)) → ToldBy A.Measure.means S.Store.contents slots.now ms head.now (LineOf at) (λ m. line_of_offset («text_of» m) at) store.old store.new result }
{
    let size = size_of::<A>(slots, head.text)?;
    if at > size {
        return Err(TextFault::Offset);
    }
    Ok(place_of::<S, A>(slots, store, head.text, at)?)
}

pub fn start_of<S: Store, A: Measure<Item = u8>>(
    slots: &[TextRecord<A::Value>],
    store: &mut S,
    head: &Head,
    line: u32,
) -> Result<Option<u32>, TextFault>
    ensures { (ms : List (Record MarkRow MarkTotals)) → ToldBy A.Measure.means S.Store.contents slots.now ms head.now (StartOf line) (λ m. start_of_line («text_of» m) line) store.old store.new result }
{
    Ok(line_start::<S, A>(slots, store, head.text, line)?)
}
