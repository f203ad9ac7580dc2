// The first mark at or after an offset.
ghost use Rattle.std.specs.Prelude.{ℕ, List};
ghost use Rattle.plain.specs.Questions.{mark_of_offset};
ghost use Rattle.plain.specs.declared.calls.Call.TheVariants.{MarkFrom as AskMark};
ghost use Rattle.pieces.specs.Asked.{Told};
ghost use Rattle.questions.specs.Marks.{FirstMark};

use asking::finding::find_row;
use edits::doors::size_of;
use measures::Measure;
use measures::mark_totals::{MarkRow, MarkTotals};
use measures::probes::MarkFrom;
use pieces::head::{Head, MarkRecord, TextRecord};
use plain::answers::Mark;
use plain::faults::TextFault;
use slots::records::{Tree, Unsound};

// Of marks with equal offsets the first in order.
pub fn first_mark(marks: &[MarkRecord], tree: Tree, at: u32) -> Result<Option<Mark>, Unsound>
    ensures { FirstMark marks.now tree at result }
{
    let mut before = MarkTotals { gaps: 0, count: 0 };
    let probe = MarkFrom { at };
    let found = find_row::<MarkRow, MarkTotals, MarkFrom>(marks, tree, &probe, &mut before)?;
    Ok(found.map(|row| Mark {
        offset: before.gaps.saturating_add(row.gap),
        label: row.label,
    }))
}

pub fn mark_from<A: Measure<Item = u8>>(
    slots: &[TextRecord<A::Value>],
    marks: &[MarkRecord],
    head: &Head,
    at: u32,
) -> Result<Option<Mark>, TextFault>
    ensures { (B : List ℕ) → Told A.Measure.means B slots.now marks.now head.now (AskMark at) (λ m. mark_of_offset m.marks at) result }
{
    let size = size_of::<A>(slots, head.text)?;
    if at > size {
        return Err(TextFault::Offset);
    }
    Ok(first_mark(marks, head.marks, at)?)
}
