// The engine with all that a script lends it.
ghost use Rattle.std.specs.Prelude.{◌≡◌, ◌+◌, ◌≤◌, length};
ghost use Rattle.plain.specs.Machine.{fresh};
ghost use Rattle.stores.specs.Kinds.{joined_contents};
ghost use Rattle.calls.specs.Calls.{plain_calls};
ghost use Rattle.call_script.specs.Replied.{Replied};

use calls::run;
use calls::texts::Reply;
use measures::longest_line::LongestLine;
use pieces::head::{MarkRecord, TextRecord};
use plain::calls::Call;
use slots::records::{Link, Record};
use stores::buffer::Buffer;
use stores::joined::{Joined, join};
use stores::original::Original;

const SLOTS: usize = 168;

const SPACE: usize = 4096;

type ScriptStore<'a, 'b> = Joined<Original<'a>, Buffer<'b>>;

// The text, and behind it the space for what is inserted.
fn join_space<'a, 'b>(text: &'a [u8], space: &'b mut [u8]) -> ScriptStore<'a, 'b>
    requires { (length text.now ≤ 2048) × (length space.old ≡ 4096) }
    ensures bytes { (joined_contents result).bytes ≡ text.now }
    ensures capacity { (joined_contents result).capacity ≡ length text.now + 4096 }
{
    // No `unwrap`: the borrow checker does not cover it for a value that may hold several `&mut`.
    match join(Original::new(text), Buffer::new(space)) {
        Ok(joined) => joined,
        Err(_) => unreachable(),
    }
}

// Makes the calls on the text; there is one place for each reply.
pub(crate) fn reply_to_calls(text: &[u8], calls: &[Call<&[u8]>], replies: &mut [Reply<LongestLine>])
    requires small { length text.now ≤ 2048 }
    requires places { length replies.old ≡ length calls.now }
    ensures { Replied (fresh text.now (length text.now + 4096) 168 168) (plain_calls calls.now) replies.new }
{
    let mut space = [0; SPACE];
    let mut slots: [TextRecord<LongestLine>; SLOTS] = [Record::Free(None); SLOTS];
    let mut marks: [MarkRecord; SLOTS] = [Record::Free(None); SLOTS];
    let mut scratch = [0; SLOTS];
    let mut store = join_space(text, &mut space);
    run::<ScriptStore, LongestLine>(
        &mut slots,
        &mut marks,
        &mut store,
        &mut scratch,
        calls,
        replies,
    )
    .unwrap();
}
