// The clip given up: its slots go back to the chain.
ghost use Rattle.std.specs.Prelude.{◌≡◌, ℕ, List, Ok};
ghost use Rattle.measures.specs.declared.mark_totals.MarkRow.{MarkRow};
ghost use Rattle.measures.specs.declared.mark_totals.MarkTotals.{MarkTotals};
ghost use Rattle.pieces.specs.Edited.{Edits};
ghost use Rattle.pieces.specs.Sound.{whole, held};
ghost use Rattle.plain.specs.declared.calls.Call.TheVariants.{Discard};
ghost use Rattle.stores.specs.Stores.{Contents};
ghost use Rattle.slots.specs.declared.records.Record.{Record};
ghost use Rattle.slots.specs.declared.records.Tree.TheVariants.{Empty};

use measures::Measure;
use pieces::head::{Head, TextRecord};
use release::release;
use slots::records::Tree;

// In unsound memory the clip is forgotten all the same.
pub fn discard<A: Measure<Item = u8>>(head: &mut Head, slots: &mut [TextRecord<A::Value>])
    ensures edits { (ms : List (Record MarkRow MarkTotals)) (s : Contents) → Edits A.Measure.means (λ (t : Contents). t) Discard held whole s s slots.old slots.new ms ms head.old head.new (Ok tt) }
    ensures clip { head.new.clip ≡ Empty }
{
    let gone = release(slots, &mut head.free, head.clip).unwrap_or(0);
    head.clip = Tree::Empty;
    head.pieces = head.pieces.saturating_sub(gone);
}
