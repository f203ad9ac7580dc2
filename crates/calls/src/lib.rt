// Lists of calls on a text: `run` opens a text and makes every call of a list on it. specs/Claim.antt
// and specs/Runs.antt say what that comes to.
#![tactic(auto)]

ghost use Rattle.calls.specs.Claim.{moment};
ghost use Rattle.calls.specs.Runs.{Claim};
ghost use Rattle.calls.specs.Calls.{plain_calls};
ghost use Rattle.calls.specs.Steps.{MakesAll, Settles};

use crate::making::make_call;
use crate::texts::{Reply, Text, put_reply};
use measures::Measure;
use pieces::head::{MarkRecord, TextRecord};
use plain::calls::Call;
use plain::faults::TextFault;
use slots::arena::watched;
use stores::Store;
use text::Whole;

mod auditing;
mod editing;
mod inquiries;
mod making;
pub mod texts;

// Why a list of calls is not begun. Nothing was touched then.
#[derive(Clone, Copy)]
pub enum RunFault {
    // fewer places for replies than calls
    Replies,
    // fewer scratch bytes than watched slots in the larger slice
    Scratch,
    // the text cannot be opened
    Opening(TextFault),
}

impl From<TextFault> for RunFault {
    ghost use Rattle.std.specs.Prelude.{◌≡◌};
    ghost use Rattle.calls.specs.declared.RunFault.TheVariants.{Opening};

    ghost from_gives = { λ fault outer. outer ≡ Opening fault };

    fn from(fault: TextFault) -> RunFault {
        RunFault::Opening(fault)
    }
}

// Makes the calls one after the other, as many as there are replies for.
pub fn make_calls<S: Store, A: Measure<Item = u8>>(
    text: Text,
    slots: &mut [TextRecord<A::Value>],
    marks: &mut [MarkRecord],
    store: &mut S,
    scratch: &mut [u8],
    calls: &[Call<&[u8]>],
    replies: &mut [Reply<A::Value>],
) -> Text
    ensures { MakesAll A.Measure.means S.Store.contents (moment text slots.old marks.old store.old scratch.old) (plain_calls calls.now) replies.old replies.new (moment result slots.new marks.new store.new scratch.new) }
{
    let mut text = text;
    let count = calls.len().min(replies.len());
    for (i, call) in calls[..count].iter().enumerate() {
        let (next, reply) = make_call::<S, A>(text, slots, marks, store, scratch, *call);
        text = next;
        put_reply(replies, i, reply);
    }
    text
}

// A text without a clip: one that is left is discarded.
fn settle<A: Measure<Item = u8>>(text: Text, slots: &mut [TextRecord<A::Value>]) -> Whole
    ensures { Settles A.Measure.means text slots.old result slots.new }
{
    match text {
        Text::Whole(whole) => whole,
        Text::Held(held) => held.discard::<A>(slots),
    }
}

// Opens a text over slots that may hold anything, makes every call of the list on it, and discards a clip that is left.
pub fn run<S: Store, A: Measure<Item = u8>>(
    slots: &mut [TextRecord<A::Value>],
    marks: &mut [MarkRecord],
    store: &mut S,
    scratch: &mut [u8],
    calls: &[Call<&[u8]>],
    replies: &mut [Reply<A::Value>],
) -> Result<Whole, RunFault>
    ensures { Claim A.Measure.means S.Store.contents (plain_calls calls.now) slots.old slots.new marks.old marks.new store.old store.new scratch.old scratch.new replies.old replies.new result }
{
    if replies.len() < calls.len() {
        return Err(RunFault::Replies);
    }
    let larger = watched(slots.len()).max(watched(marks.len()));
    if scratch.len() < usize::from(larger) {
        return Err(RunFault::Scratch);
    }
    let whole = Whole::open::<S, A>(slots, marks, store)?;
    let text = Text::Whole(whole);
    let text = make_calls::<S, A>(text, slots, marks, store, scratch, calls, replies);
    Ok(settle::<A>(text, slots))
}
