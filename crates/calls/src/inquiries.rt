// The questions of a list of calls.
ghost use Rattle.std.specs.Prelude.{◌≡◌};
ghost use Rattle.plain.specs.Machine.{accepted};
ghost use Rattle.pieces.specs.Asked.{ToldBy};
ghost use Rattle.text.specs.Texts.{watched_of};
ghost use Rattle.calls.specs.Calls.{plain_call, questions as «a-question», kind_of};

use measures::Measure;
use pieces::head::{MarkRecord, TextRecord};
use plain::answers::Answer;
use plain::calls::Call;
use plain::faults::TextFault;
use stores::Store;
use text::view::View;

// Any other call is not asked here.
pub(crate) fn ask<S: Store, A: Measure<Item = u8>>(
    view: View,
    slots: &[TextRecord<A::Value>],
    marks: &[MarkRecord],
    store: &mut S,
    call: Call<&[u8]>,
) -> Result<Answer<A::Value>, TextFault>
    ensures { kind_of (plain_call call.entry) ≡ «a-question» → ToldBy A.Measure.means S.Store.contents (watched_of slots.now) (watched_of marks.now) view.entry.head.now (plain_call call.entry) (λ m. (accepted A.Measure.means m (plain_call call.entry)).1) store.old store.new result }
{
    match call {
        Call::LineOf { at } => Ok(Answer::Line(view.line_of::<S, A>(slots, store, at)?)),
        Call::StartOf { line } => Ok(Answer::Start(view.start_of::<S, A>(slots, store, line)?)),
        Call::TokenAt { at } => Ok(Answer::Token(view.token_at::<S, A>(slots, store, at)?)),
        Call::TokenNumber { number } => Ok(Answer::Token(view.token_number::<S, A>(
            slots, store, number,
        )?)),
        Call::BracketAt { at } => Ok(Answer::Bracket(view.bracket_at::<S, A>(slots, store, at)?)),
        Call::MarkFrom { at } => Ok(Answer::Mark(view.mark_from::<A>(slots, marks, at)?)),
        Call::Range { from, to } => Ok(Answer::Range(view.range::<S, A>(slots, store, from, to)?)),
        Call::Whole => Ok(Answer::Whole(view.whole::<A>(slots)?)),
        _ => Err(TextFault::Unsound),
    }
}
