// What may be done with a whole text.
ghost use Rattle.std.specs.Prelude.{◌≡◌, ℕ, List, IfErr, OnErr};
ghost use Rattle.plain.specs.declared.calls.Call.TheVariants.{Insert, Delete, Cut};
ghost use Rattle.plain.specs.declared.calls.Call.TheVariants.{Mark as AddMark};
ghost use Rattle.stores.specs.Stores.{Contents};
ghost use Rattle.pieces.specs.Sound.{whole as «in_whole», held as «in_held»};
ghost use Rattle.text.specs.Texts.{OpensText, EditsText, cut_head, outcome_of};

use crate::view::View;
use crate::watching::watched_part;
use crate::{Held, Refused, Whole};
use head_edits::cutting::cut;
use head_edits::deleting::delete;
use head_edits::inserting::insert;
use head_edits::marking::mark;
use measures::Measure;
use opening::open;
use pieces::head::{MarkRecord, TextRecord};
use plain::faults::TextFault;
use slots::arena::watched;
use stores::Store;

impl Whole {
    // The slots may have held anything.
    pub fn open<S: Store, A: Measure<Item = u8>>(
        slots: &mut [TextRecord<A::Value>],
        marks: &mut [MarkRecord],
        store: &mut S,
    ) -> Result<Whole, TextFault>
        ensures { OpensText A.Measure.means S.Store.contents store.old store.new slots.old slots.new marks.old marks.new result }
    {
        let lent = usize::from(watched(slots.len()));
        let lent_marks = usize::from(watched(marks.len()));
        let head = open::<S, A>(&mut slots[..lent], &mut marks[..lent_marks], store)?;
        Ok(Whole { head })
    }

    pub fn insert<S: Store, A: Measure<Item = u8>>(
        &mut self,
        slots: &mut [TextRecord<A::Value>],
        marks: &mut [MarkRecord],
        store: &mut S,
        at: u32,
        bytes: &[u8],
    ) -> Result<(), TextFault>
        ensures edits { EditsText A.Measure.means S.Store.contents (Insert at bytes.now) «in_whole» «in_whole» store.old store.new slots.old slots.new marks.old marks.new self.old.head self.new.head result }
        ensures stays { OnErr result (self.new.head ≡ self.old.head) }
    {
        let lent = usize::from(watched(slots.len()));
        let lent_marks = usize::from(watched(marks.len()));
        insert::<S, A>(
            &mut self.head,
            &mut slots[..lent],
            &mut marks[..lent_marks],
            store,
            at,
            bytes,
        )
    }

    pub fn delete<S: Store, A: Measure<Item = u8>>(
        &mut self,
        slots: &mut [TextRecord<A::Value>],
        marks: &mut [MarkRecord],
        store: &mut S,
        from: u32,
        to: u32,
    ) -> Result<(), TextFault>
        ensures edits { EditsText A.Measure.means S.Store.contents (Delete from to) «in_whole» «in_whole» store.old store.new slots.old slots.new marks.old marks.new self.old.head self.new.head result }
        ensures stays { OnErr result (self.new.head ≡ self.old.head) }
    {
        let lent = usize::from(watched(slots.len()));
        let lent_marks = usize::from(watched(marks.len()));
        delete::<S, A>(
            &mut self.head,
            &mut slots[..lent],
            &mut marks[..lent_marks],
            store,
            from,
            to,
        )
    }

    pub fn mark<A: Measure<Item = u8>>(
        &mut self,
        slots: &[TextRecord<A::Value>],
        marks: &mut [MarkRecord],
        at: u32,
        label: u16,
    ) -> Result<(), TextFault>
        ensures edits { (s : Contents) → EditsText A.Measure.means (λ (t : Contents). t) (AddMark at label) «in_whole» «in_whole» s s slots.now slots.now marks.old marks.new self.old.head self.new.head result }
        ensures stays { OnErr result (self.new.head ≡ self.old.head) }
    {
        let lent_marks = usize::from(watched(marks.len()));
        mark::<A>(
            &mut self.head,
            watched_part(slots),
            &mut marks[..lent_marks],
            at,
            label,
        )
    }

    pub fn cut<S: Store, A: Measure<Item = u8>>(
        self,
        slots: &mut [TextRecord<A::Value>],
        marks: &mut [MarkRecord],
        store: &mut S,
        from: u32,
        to: u32,
    ) -> Result<Held, Refused<Whole>>
        ensures edits { EditsText A.Measure.means S.Store.contents (Cut from to) «in_whole» «in_held» store.old store.new slots.old slots.new marks.old marks.new self.head (cut_head result) (outcome_of result) }
        ensures stays { IfErr result (λ refused. refused.text.head ≡ self.head) }
    {
        let lent = usize::from(watched(slots.len()));
        let lent_marks = usize::from(watched(marks.len()));
        let mut head = self.head;
        match cut::<S, A>(
            &mut head,
            &mut slots[..lent],
            &mut marks[..lent_marks],
            store,
            from,
            to,
        ) {
            Ok(()) => Ok(Held { head }),
            Err(fault) => Err(Refused {
                text: Whole { head },
                fault,
            }),
        }
    }

    pub fn view(&self) -> View<'_>
        ensures { result.head.now ≡ self.now.head }
    {
        View { head: &self.head }
    }
}
