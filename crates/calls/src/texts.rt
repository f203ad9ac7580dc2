// A text in a list of calls, and what a call of the list gives.
ghost use Rattle.std.specs.Prelude.{◌≡◌, ◌<◌, length, slice_set};
ghost use Rattle.calls.specs.Calls.{head_of};

use plain::answers::Answer;
use plain::faults::CallFault;
use text::view::View;
use text::{Held, Whole};

pub enum Text {
    Whole(Whole),
    Held(Held),
}

// What a call gave, and how many bytes the text has after it.
#[derive(Clone, Copy)]
pub struct Reply<V> {
    pub outcome: Result<Answer<V>, CallFault>,
    pub size: u32,
}

// Puts down the reply to call i, if there is a place for it. Neither a walk by `zip` nor `get_mut` would tell the proof what
// the places hold in the end.
pub(crate) fn put_reply<V: Copy>(replies: &mut [Reply<V>], i: usize, reply: Reply<V>)
    ensures { i < length replies.old → replies.new ≡ slice_set replies.old i reply }
{
    if i < replies.len() {
        replies[i] = reply;
    }
}

impl Text {
    pub fn view(&self) -> View<'_>
        ensures { result.head.now ≡ head_of self.now }
    {
        match self {
            Text::Whole(whole) => whole.view(),
            Text::Held(held) => held.view(),
        }
    }
}
