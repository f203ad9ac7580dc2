// What is printed of the lines after the one that opened the text.
ghost use Rattle.std.specs.Prelude.{◌≡◌, ℕ};
ghost use Rattle.plain.specs.Script.{outcome_fields};
ghost use Rattle.script.specs.Engines.{line_fields};
ghost use Rattle.call_script.specs.Replied.{numbered, numbered_outcome};

use crate::collecting::{decode_calls, lend_bytes, read_calls};
use crate::engine::reply_to_calls;
use calls::texts::Reply;
use measures::longest_line::LongestLine;
use plain::answers::Answer;
use plain::faults::LineFault;
use script::engine::Engine;
use script::input::Lines;
use script::replies::{Answered, Replies, print_replies};
use script::requests::read_call;
use std::alloc::{AllocError, Global};

// Of the longest line, how long it is. A `map` of `Answer` would have the same arms, and this one caller.
fn numbered_answer(answer: Answer<LongestLine>) -> Answer<u32>
    ensures { result ≡ numbered answer }
{
    match answer {
        Answer::Done => Answer::Done,
        Answer::Line(place) => Answer::Line(place),
        Answer::Start(start) => Answer::Start(start),
        Answer::Token(token) => Answer::Token(token),
        Answer::Bracket(bracket) => Answer::Bracket(bracket),
        Answer::Mark(mark) => Answer::Mark(mark),
        Answer::Range(value) => Answer::Range(value.longest()),
        Answer::Whole(summary) => Answer::Whole(summary),
        Answer::Sound => Answer::Sound,
    }
}

fn numbered_reply(reply: &Reply<LongestLine>) -> Result<Answered, LineFault>
    ensures { (i : ℕ) → line_fields i result ≡ outcome_fields i reply.now.size (numbered_outcome reply.now.outcome) }
{
    let answer = reply.outcome?;
    Ok(Answered {
        answer: numbered_answer(answer),
        size: reply.size,
    })
}

// The replies that are left of those to all calls.
#[derive(Clone, Copy)]
struct Left<'a> {
    replies: &'a [Reply<LongestLine>],
}

impl<'a> Replies for Left<'a> {
    ghost use Rattle.std.specs.Prelude.{refl};
    ghost use Rattle.call_script.specs.Replied.{replies_from};

    ghost prints = { λ i s ls. replies_from i s.replies.now ls };

    fn reply(&mut self, line: &[u8]) -> Result<Answered, LineFault> {
        read_call(line)?;
        let (reply, left) = self.replies.split_first().ok_or(LineFault::Unreadable)?;
        self.replies = left;
        numbered_reply(reply)
    }

    ghost ends = { λ i s. refl };
}

// Makes the calls of all lines as one list.
pub struct ByCalls;

impl Engine for ByCalls {
    ghost use Rattle.std.specs.Prelude.{refl};
    ghost use Rattle.plain.specs.Script.{lines_from};

    ghost prints = { lines_from };

    fn answer_lines(
        heap: Global,
        text: &[u8],
        lines: Lines,
        out: &mut Vec<u8>,
    ) -> Result<(), AllocError> {
        let read = read_calls(heap, lines)?;
        let mut bytes = Vec::new(heap);
        decode_calls(read.as_slice(), &mut bytes)?;
        let calls = lend_bytes(heap, read.as_slice(), bytes.as_slice())?;
        let unanswered = Reply {
            outcome: Ok(Answer::Done),
            size: 0,
        };
        let mut replies = Vec::from_elem(heap, unanswered, calls.len())?;
        reply_to_calls(text, calls.as_slice(), replies.as_mut_slice());
        let mut left = Left {
            replies: replies.as_slice(),
        };
        print_replies(&mut left, lines, out)
    }

    ghost waits = { record { ends = λ i. refl; reads = λ i l ls. refl } };
}
