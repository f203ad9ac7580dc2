// One call of a list.
ghost use Rattle.calls.specs.Calls.{plain_call};
ghost use Rattle.calls.specs.Claim.{moment};
ghost use Rattle.calls.specs.Steps.{Performs, Makes, Enough, SizeTold};
ghost use Rattle.text.specs.Texts.{watched_of};

use crate::auditing::audit;
use crate::editing::edit;
use crate::inquiries::ask;
use crate::texts::{Reply, Text};
use measures::Measure;
use pieces::head::{MarkRecord, TextRecord};
use plain::answers::Answer;
use plain::calls::Call;
use plain::faults::CallFault;
use stores::Store;
use text::view::View;

fn size_of<A: Measure<Item = u8>>(view: View, slots: &[TextRecord<A::Value>]) -> u32
    ensures { SizeTold A.Measure.means (watched_of slots.now) view.entry.head.now result }
{
    view.whole::<A>(slots).map_or(0, |summary| summary.bytes)
}

fn perform<S: Store, A: Measure<Item = u8>>(
    text: Text,
    slots: &mut [TextRecord<A::Value>],
    marks: &mut [MarkRecord],
    store: &mut S,
    scratch: &mut [u8],
    call: Call<&[u8]>,
) -> (Text, Result<Answer<A::Value>, CallFault>)
    ensures { Enough slots.old marks.old scratch.old → Performs A.Measure.means S.Store.contents (moment text slots.old marks.old store.old scratch.old) (plain_call call.entry) result.1 (moment result.0 slots.new marks.new store.new scratch.new) }
{
    match call {
        Call::Insert { .. }
        | Call::Delete { .. }
        | Call::Cut { .. }
        | Call::Paste { .. }
        | Call::Discard
        | Call::Mark { .. } => edit::<S, A>(text, slots, marks, store, call),
        Call::Audit { scratch: bytes } => {
            let result = audit::<S, A>(text.view(), slots, marks, store, scratch, bytes);
            let outcome = result.map(|()| Answer::Sound).map_err(CallFault::Text);
            (text, outcome)
        }
        _ => {
            let result = ask::<S, A>(text.view(), slots, marks, store, call);
            (text, result.map_err(CallFault::Text))
        }
    }
}

// A call that is not allowed at its place is answered so, and changes nothing.
pub(crate) fn make_call<S: Store, A: Measure<Item = u8>>(
    text: Text,
    slots: &mut [TextRecord<A::Value>],
    marks: &mut [MarkRecord],
    store: &mut S,
    scratch: &mut [u8],
    call: Call<&[u8]>,
) -> (Text, Reply<A::Value>)
    ensures { Enough slots.old marks.old scratch.old → Makes A.Measure.means S.Store.contents (moment text slots.old marks.old store.old scratch.old) (plain_call call.entry) result.1 (moment result.0 slots.new marks.new store.new scratch.new) }
{
    let (text, outcome) = perform::<S, A>(text, slots, marks, store, scratch, call);
    let size = size_of::<A>(text.view(), slots);
    (text, Reply { outcome, size })
}
