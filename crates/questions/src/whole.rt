// The whole text in numbers. No byte is read.
ghost use Rattle.std.specs.Prelude.{ℕ, List};
ghost use Rattle.plain.specs.Machine.{text};
ghost use Rattle.plain.specs.Questions.{summary};
ghost use Rattle.plain.specs.declared.calls.Call.TheVariants.{Whole};
ghost use Rattle.measures.specs.declared.mark_totals.MarkRow.{MarkRow};
ghost use Rattle.measures.specs.declared.mark_totals.MarkTotals.{MarkTotals};
ghost use Rattle.slots.specs.declared.records.Record.{Record};
ghost use Rattle.pieces.specs.Asked.{Told};

use lexer::summing::sum_up;
use measures::Measure;
use pieces::head::{Head, TextMeasure, TextRecord};
use pieces::rows::PieceRow;
use plain::answers::Summary;
use plain::faults::TextFault;
use slots::values::tree_value;

pub fn whole<A: Measure<Item = u8>>(
    slots: &[TextRecord<A::Value>],
    head: &Head,
) -> Result<Summary, TextFault>
    ensures { (B : List ℕ) (ms : List (Record MarkRow MarkTotals)) → Told A.Measure.means B slots.now ms head.now Whole (λ m. summary (text m)) result }
{
    let value = tree_value::<PieceRow, TextMeasure<A>>(slots, head.text)?;
    Ok(sum_up(&value.left.left, &value.left.right))
}
