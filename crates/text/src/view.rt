// What may be asked of a text, whole or held.
ghost use Rattle.std.specs.Prelude.{ℕ, List};
ghost use Rattle.plain.specs.Lists.{slice};
ghost use Rattle.plain.specs.Machine.{text as «text_of»};
ghost use Rattle.plain.specs.Questions.{line_of_offset, start_of_line, token_of_offset, token_of_number, bracket_of_offset, mark_of_offset, summary};
ghost use Rattle.plain.specs.declared.calls.Call.TheVariants.{LineOf, StartOf, TokenAt, TokenNumber, BracketAt, Range};
ghost use Rattle.plain.specs.declared.calls.Call.TheVariants.{MarkFrom as AskMark, Whole as AskWhole};
ghost use Rattle.measures.specs.declared.mark_totals.MarkRow.{MarkRow};
ghost use Rattle.measures.specs.declared.mark_totals.MarkTotals.{MarkTotals};
ghost use Rattle.slots.specs.declared.records.Record.{Record};
ghost use Rattle.pieces.specs.Asked.{Told, ToldBy};
ghost use Rattle.memory_audit.specs.MemoryAudited.{MemoryAudited};
ghost use Rattle.text.specs.Texts.{watched_of};

use crate::watching::watched_part;
use bracket_answers::brackets::bracket_at;
use measures::Measure;
use memory_audit::audit_memory;
use pieces::head::{Head, MarkRecord, TextRecord};
use plain::answers::{Bracket, Mark, Place, Summary, Token};
use plain::faults::TextFault;
use questions::lines::{line_of, start_of};
use questions::marks::mark_from;
use questions::range::range;
use questions::whole::whole;
use stores::Store;
use token_answers::tokens::{token_at, token_number};

// A text that is lent to be read.
#[derive(Clone, Copy)]
pub struct View<'a> {
    pub(crate) head: &'a Head,
}

impl<'a> View<'a> {
    pub fn line_of<S: Store, A: Measure<Item = u8>>(
        self,
        slots: &[TextRecord<A::Value>],
        store: &mut S,
        at: u32,
    ) -> Result<Place, TextFault>
        ensures { (ms : List (Record MarkRow MarkTotals)) → ToldBy A.Measure.means S.Store.contents (watched_of slots.now) ms self.entry.head.now (LineOf at) (λ m. line_of_offset («text_of» m) at) store.old store.new result }
    {
        line_of::<S, A>(watched_part(slots), store, self.head, at)
    }

    pub fn start_of<S: Store, A: Measure<Item = u8>>(
        self,
        slots: &[TextRecord<A::Value>],
        store: &mut S,
        line: u32,
    ) -> Result<Option<u32>, TextFault>
        ensures { (ms : List (Record MarkRow MarkTotals)) → ToldBy A.Measure.means S.Store.contents (watched_of slots.now) ms self.entry.head.now (StartOf line) (λ m. start_of_line («text_of» m) line) store.old store.new result }
    {
        start_of::<S, A>(watched_part(slots), store, self.head, line)
    }

    pub fn token_at<S: Store, A: Measure<Item = u8>>(
        self,
        slots: &[TextRecord<A::Value>],
        store: &mut S,
        at: u32,
    ) -> Result<Option<Token>, TextFault>
        ensures { (ms : List (Record MarkRow MarkTotals)) → ToldBy A.Measure.means S.Store.contents (watched_of slots.now) ms self.entry.head.now (TokenAt at) (λ m. token_of_offset («text_of» m) at) store.old store.new result }
    {
        token_at::<S, A>(watched_part(slots), store, self.head, at)
    }

    pub fn token_number<S: Store, A: Measure<Item = u8>>(
        self,
        slots: &[TextRecord<A::Value>],
        store: &mut S,
        number: u32,
    ) -> Result<Option<Token>, TextFault>
        ensures { (ms : List (Record MarkRow MarkTotals)) → ToldBy A.Measure.means S.Store.contents (watched_of slots.now) ms self.entry.head.now (TokenNumber number) (λ m. token_of_number («text_of» m) number) store.old store.new result }
    {
        token_number::<S, A>(watched_part(slots), store, self.head, number)
    }

    pub fn bracket_at<S: Store, A: Measure<Item = u8>>(
        self,
        slots: &[TextRecord<A::Value>],
        store: &mut S,
        at: u32,
    ) -> Result<Option<Bracket>, TextFault>
        ensures { (ms : List (Record MarkRow MarkTotals)) → ToldBy A.Measure.means S.Store.contents (watched_of slots.now) ms self.entry.head.now (BracketAt at) (λ m. bracket_of_offset («text_of» m) at) store.old store.new result }
    {
        bracket_at::<S, A>(watched_part(slots), store, self.head, at)
    }

    pub fn mark_from<A: Measure<Item = u8>>(
        self,
        slots: &[TextRecord<A::Value>],
        marks: &[MarkRecord],
        at: u32,
    ) -> Result<Option<Mark>, TextFault>
        ensures { (B : List ℕ) → Told A.Measure.means B (watched_of slots.now) (watched_of marks.now) self.entry.head.now (AskMark at) (λ m. mark_of_offset m.marks at) result }
    {
        mark_from::<A>(watched_part(slots), watched_part(marks), self.head, at)
    }

    pub fn range<S: Store, A: Measure<Item = u8>>(
        self,
        slots: &[TextRecord<A::Value>],
        store: &mut S,
        from: u32,
        to: u32,
    ) -> Result<A::Value, TextFault>
        ensures { (ms : List (Record MarkRow MarkTotals)) → ToldBy A.Measure.means S.Store.contents (watched_of slots.now) ms self.entry.head.now (Range from to) (λ m. A.Measure.means (slice («text_of» m) from to)) store.old store.new result }
    {
        range::<S, A>(watched_part(slots), store, self.head, from, to)
    }

    pub fn whole<A: Measure<Item = u8>>(
        self,
        slots: &[TextRecord<A::Value>],
    ) -> Result<Summary, TextFault>
        ensures { (B : List ℕ) (ms : List (Record MarkRow MarkTotals)) → Told A.Measure.means B (watched_of slots.now) ms self.entry.head.now AskWhole (λ m. summary («text_of» m)) result }
    {
        whole::<A>(watched_part(slots), self.head)
    }

    // Whether memory is sound; the scratch may hold anything.
    pub fn audit<S: Store, A: Measure<Item = u8>>(
        self,
        slots: &[TextRecord<A::Value>],
        marks: &[MarkRecord],
        store: &mut S,
        scratch: &mut [u8],
    ) -> Result<(), TextFault>
        ensures { MemoryAudited A.Measure.means S.Store.contents store.old store.new (watched_of slots.now) (watched_of marks.now) self.entry.head.now scratch.old scratch.new result }
    {
        audit_memory::<S, A>(
            watched_part(slots),
            watched_part(marks),
            store,
            self.head,
            scratch,
        )
    }
}
