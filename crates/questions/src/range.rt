// The value of the added measure over a part of the text.
ghost use Rattle.std.specs.Prelude.{◌≤◌, List, length};
ghost use Rattle.plain.specs.Lists.{slice};
ghost use Rattle.plain.specs.Machine.{text as «text_of»};
ghost use Rattle.plain.specs.declared.calls.Call.TheVariants.{Range};
ghost use Rattle.measures.specs.declared.mark_totals.MarkRow.{MarkRow};
ghost use Rattle.measures.specs.declared.mark_totals.MarkTotals.{MarkTotals};
ghost use Rattle.slots.specs.declared.records.Record.{Record};
ghost use Rattle.pieces.specs.Asked.{ToldBy};
ghost use Rattle.asking.specs.Texts.{Answered};
ghost use Rattle.questions.specs.Ranges.{RestMeasured};

use asking::finding::{find_row, find_row_after};
use asking::parts::measure_slice;
use edits::doors::size_of;
use edits::edges::{AtByte, at_byte};
use measures::Measure;
use pieces::head::{Head, TextMeasure, TextRecord};
use pieces::rows::PieceRow;
use plain::faults::TextFault;
use slots::records::{Tree, Unsound};
use stores::Store;

// The value of the first bytes, `many` of them, after the piece in which an offset lies.
pub fn measure_rest<S: Store, A: Measure<Item = u8>>(
    slots: &[TextRecord<A::Value>],
    store: &mut S,
    text: Tree,
    offset: u32,
    many: u32,
) -> Result<A::Value, Unsound>
    ensures { RestMeasured S.Store.contents A.Measure.means slots.now text offset many store.old store.new result }
{
    let mut between = TextMeasure::<A>::empty();
    let found = find_row_after::<PieceRow, TextMeasure<A>, AtByte, AtByte>(
        slots,
        text,
        &at_byte(offset),
        &at_byte(many),
        &mut between,
    )?;
    let Some(row) = found else {
        return Ok(between.right);
    };
    let inside = many.saturating_sub(between.left.left.bytes);
    let end = measure_slice::<S, A>(store, row, 0, inside)?;
    Ok(A::join(&between.right, &end))
}

// Whole pieces are not read, but those at both ends are where only a part is asked for.
pub fn measure_between<S: Store, A: Measure<Item = u8>>(
    slots: &[TextRecord<A::Value>],
    store: &mut S,
    text: Tree,
    from: u32,
    to: u32,
) -> Result<A::Value, Unsound>
    ensures { Answered S.Store.contents 512 A.Measure.means slots.now text (λ t. (from ≤ to) × (to ≤ length t)) (λ t. A.Measure.means (slice t from to)) store.old store.new result }
{
    let mut before = TextMeasure::<A>::empty();
    let found = find_row::<PieceRow, TextMeasure<A>, AtByte>(
        slots,
        text,
        &at_byte(from),
        &mut before,
    )?;
    let Some(row) = found else {
        return Ok(A::empty());
    };
    let start = before.left.left.bytes;
    let first = measure_slice::<S, A>(
        store,
        row,
        from.saturating_sub(start),
        to.saturating_sub(start),
    )?;
    let end = start.saturating_add(row.length);
    if to <= end {
        return Ok(first);
    }
    let rest = measure_rest::<S, A>(slots, store, text, from, to - end)?;
    Ok(A::join(&first, &rest))
}

pub fn range<S: Store, A: Measure<Item = u8>>(
    slots: &[TextRecord<A::Value>],
    store: &mut S,
    head: &Head,
    from: u32,
    to: u32,
) -> Result<A::Value, TextFault>
    ensures { (ms : List (Record MarkRow MarkTotals)) → ToldBy A.Measure.means S.Store.contents slots.now ms head.now (Range from to) (λ m. A.Measure.means (slice («text_of» m) from to)) store.old store.new result }
{
    let size = size_of::<A>(slots, head.text)?;
    if from > to || to > size {
        return Err(TextFault::Offset);
    }
    Ok(measure_between::<S, A>(slots, store, head.text, from, to)?)
}
