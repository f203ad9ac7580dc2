// The edits of a list of calls.
ghost use Rattle.std.specs.Prelude.{◌≡◌, ℕ, List};
ghost use Rattle.calls.specs.Calls.{plain_call, edits as «an-edit», kind_of};
ghost use Rattle.calls.specs.Claim.{moment};
ghost use Rattle.calls.specs.Steps.{Performs};
ghost use Rattle.calls.specs.declared.texts.Text.TheVariants.{Whole as «whole-text», Held as «held-text»};

use crate::texts::Text;
use measures::Measure;
use pieces::head::{MarkRecord, TextRecord};
use plain::answers::Answer;
use plain::calls::Call;
use plain::faults::CallFault;
use stores::Store;
use text::{Held, Refused, Whole};

fn edit_whole<S: Store, A: Measure<Item = u8>>(
    mut whole: Whole,
    slots: &mut [TextRecord<A::Value>],
    marks: &mut [MarkRecord],
    store: &mut S,
    call: Call<&[u8]>,
) -> (Text, Result<Answer<A::Value>, CallFault>)
    ensures { kind_of (plain_call call.entry) ≡ «an-edit» → (z : List ℕ) → Performs A.Measure.means S.Store.contents (moment («whole-text» whole) slots.old marks.old store.old z) (plain_call call.entry) result.1 (moment result.0 slots.new marks.new store.new z) }
{
    match call {
        Call::Insert { at, bytes } => {
            let result = whole.insert::<S, A>(slots, marks, store, at, bytes);
            let outcome = result.map(|()| Answer::Done).map_err(CallFault::Text);
            (Text::Whole(whole), outcome)
        }
        Call::Delete { from, to } => {
            let result = whole.delete::<S, A>(slots, marks, store, from, to);
            let outcome = result.map(|()| Answer::Done).map_err(CallFault::Text);
            (Text::Whole(whole), outcome)
        }
        Call::Mark { at, label } => {
            let result = whole.mark::<A>(slots, marks, at, label);
            let outcome = result.map(|()| Answer::Done).map_err(CallFault::Text);
            (Text::Whole(whole), outcome)
        }
        Call::Cut { from, to } => match whole.cut::<S, A>(slots, marks, store, from, to) {
            Ok(held) => (Text::Held(held), Ok(Answer::Done)),
            Err(Refused { text, fault }) => (Text::Whole(text), Err(CallFault::Text(fault))),
        },
        _ => (Text::Whole(whole), Err(CallFault::NotAllowed)),
    }
}

fn edit_held<S: Store, A: Measure<Item = u8>>(
    held: Held,
    slots: &mut [TextRecord<A::Value>],
    marks: &mut [MarkRecord],
    store: &mut S,
    call: Call<&[u8]>,
) -> (Text, Result<Answer<A::Value>, CallFault>)
    ensures { kind_of (plain_call call.entry) ≡ «an-edit» → (z : List ℕ) → Performs A.Measure.means S.Store.contents (moment («held-text» held) slots.old marks.old store.old z) (plain_call call.entry) result.1 (moment result.0 slots.new marks.new store.new z) }
{
    match call {
        Call::Paste { at } => match held.paste::<S, A>(slots, marks, store, at) {
            Ok(whole) => (Text::Whole(whole), Ok(Answer::Done)),
            Err(Refused { text, fault }) => (Text::Held(text), Err(CallFault::Text(fault))),
        },
        Call::Discard => (Text::Whole(held.discard::<A>(slots)), Ok(Answer::Done)),
        _ => (Text::Held(held), Err(CallFault::NotAllowed)),
    }
}

pub(crate) fn edit<S: Store, A: Measure<Item = u8>>(
    text: Text,
    slots: &mut [TextRecord<A::Value>],
    marks: &mut [MarkRecord],
    store: &mut S,
    call: Call<&[u8]>,
) -> (Text, Result<Answer<A::Value>, CallFault>)
    ensures { kind_of (plain_call call.entry) ≡ «an-edit» → (z : List ℕ) → Performs A.Measure.means S.Store.contents (moment text slots.old marks.old store.old z) (plain_call call.entry) result.1 (moment result.0 slots.new marks.new store.new z) }
{
    match text {
        Text::Whole(whole) => edit_whole::<S, A>(whole, slots, marks, store, call),
        Text::Held(held) => edit_held::<S, A>(held, slots, marks, store, call),
    }
}
