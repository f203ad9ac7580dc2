// What may be done with a text that is held.
ghost use Rattle.std.specs.Prelude.{◌≡◌, ℕ, List, Ok, IfErr};
ghost use Rattle.plain.specs.declared.calls.Call.TheVariants.{Paste, Discard};
ghost use Rattle.measures.specs.declared.mark_totals.MarkRow.{MarkRow};
ghost use Rattle.measures.specs.declared.mark_totals.MarkTotals.{MarkTotals};
ghost use Rattle.stores.specs.Stores.{Contents};
ghost use Rattle.slots.specs.declared.records.Record.{Record};
ghost use Rattle.slots.specs.declared.records.Tree.TheVariants.{Empty};
ghost use Rattle.pieces.specs.Sound.{whole as «in_whole», held as «in_held»};
ghost use Rattle.text.specs.Texts.{EditsText, paste_head, outcome_of};

use crate::view::View;
use crate::{Held, Refused, Whole};
use head_edits::discarding::discard;
use head_edits::pasting::paste;
use measures::Measure;
use pieces::head::{MarkRecord, TextRecord};
use slots::arena::watched;
use stores::Store;

impl Held {
    pub fn paste<S: Store, A: Measure<Item = u8>>(
        self,
        slots: &mut [TextRecord<A::Value>],
        marks: &mut [MarkRecord],
        store: &mut S,
        at: u32,
    ) -> Result<Whole, Refused<Held>>
        ensures edits { EditsText A.Measure.means S.Store.contents (Paste at) «in_held» «in_whole» store.old store.new slots.old slots.new marks.old marks.new self.head (paste_head result) (outcome_of result) }
        ensures stays { IfErr result (λ refused. refused.text.head ≡ self.head) }
    {
        let lent = usize::from(watched(slots.len()));
        let lent_marks = usize::from(watched(marks.len()));
        let Held { mut head } = self;
        match paste::<S, A>(
            &mut head,
            &mut slots[..lent],
            &mut marks[..lent_marks],
            store,
            at,
        ) {
            Ok(()) => Ok(Whole { head }),
            Err(fault) => Err(Refused {
                text: Held { head },
                fault,
            }),
        }
    }

    // Ends the held state on any memory.
    pub fn discard<A: Measure<Item = u8>>(self, slots: &mut [TextRecord<A::Value>]) -> Whole
        ensures edits { (ms : List (Record MarkRow MarkTotals)) (s : Contents) → EditsText A.Measure.means (λ (t : Contents). t) Discard «in_held» «in_whole» s s slots.old slots.new ms ms self.head result.head (Ok tt) }
        ensures no_clip { result.head.clip ≡ Empty }
    {
        let lent = usize::from(watched(slots.len()));
        let Held { mut head } = self;
        discard::<A>(&mut head, &mut slots[..lent]);
        Whole { head }
    }

    pub fn view(&self) -> View<'_>
        ensures { result.head.now ≡ self.now.head }
    {
        View { head: &self.head }
    }
}
