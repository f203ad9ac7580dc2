// The slots of each slice by themselves: trees, chain and count.
ghost use Rattle.audit.specs.Checks.{rules};
ghost use Rattle.memory_audit.specs.Inspected.{Inspected, TextInspected, MarksInspected};

use crate::leaves::{AnyMark, InsideStore};
use audit::audit;
use audit::leaves::LeafCheck;
use measures::Measure;
use measures::mark_totals::{MarkRow, MarkTotals};
use pieces::head::{Head, MarkRecord, TextMeasure, TextRecord};
use pieces::limits::{LEAST_SLOTS, limit};
use pieces::rows::PieceRow;
use slots::arena::WATCHED;
use slots::records::{Link, Record, Tree, Unsound};
use slots::values::tree_value;
use stores::Store;

// Whether there are as many slots as a text may be lent, and the trees are sound in them and have so many elements.
fn inspect<R: Copy, M: Measure, S, L: LeafCheck<R, M, S>>(
    slots: &[Record<R, M::Value>],
    roots: &[Tree],
    free: Link,
    count: u32,
    scratch: &mut [u8],
    source: &mut S,
) -> Result<(), Unsound>
    ensures { Inspected (rules M.Item.Weigh.weight M.Measure.means L.LeafCheck.items L.LeafCheck.good L.LeafCheck.checks) source.old slots.now roots.now free count source.new scratch.old result }
{
    if !(LEAST_SLOTS..=usize::from(WATCHED)).contains(&slots.len()) {
        return Err(Unsound);
    }
    let most = limit(slots.len()) as u16;
    let Ok(elements) = audit::<R, M, S, L>(slots, roots, free, most, scratch, source) else {
        return Err(Unsound);
    };
    if u32::from(elements) == count {
        Ok(())
    } else {
        Err(Unsound)
    }
}

// The size of the text.
pub fn inspect_text<S: Store, A: Measure<Item = u8>>(
    slots: &[TextRecord<A::Value>],
    store: &mut S,
    head: &Head,
    scratch: &mut [u8],
) -> Result<u32, Unsound>
    ensures { TextInspected A.Measure.means S.Store.contents store.old store.new slots.now head.now scratch.old result }
{
    let roots = [head.text, head.clip];
    inspect::<PieceRow, TextMeasure<A>, S, InsideStore>(
        slots,
        &roots,
        head.free,
        head.pieces,
        scratch,
        store,
    )?;
    let value = tree_value::<PieceRow, TextMeasure<A>>(slots, head.text)?;
    Ok(value.left.left.bytes)
}

// The offset of the last mark.
pub fn inspect_marks(marks: &[MarkRecord], head: &Head, scratch: &mut [u8]) -> Result<u32, Unsound>
    ensures { MarksInspected marks.now head.now scratch.old result }
{
    let roots = [head.marks];
    inspect::<MarkRow, MarkTotals, (), AnyMark>(
        marks,
        &roots,
        head.free_marks,
        head.mark_count,
        scratch,
        &mut (),
    )?;
    let value = tree_value::<MarkRow, MarkTotals>(marks, head.marks)?;
    Ok(value.last_offset())
}
