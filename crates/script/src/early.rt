// An engine that only sums up: it keeps the text as plain bytes, and refuses every other call.
ghost use Rattle.std.specs.Prelude.{◌≤◌, length};

use crate::engine::Engine;
use crate::input::Lines;
use crate::replies::{Answered, Replies, print_replies};
use crate::requests::read_call;
use lexer::summing::sum_up;
use lexer::tokens::Tokens;
use measures::pair::Pair;
use measures::scan::measured;
use measures::totals::Totals;
use plain::answers::{Answer, Summary};
use plain::calls::Call;
use plain::faults::{CallFault, LineFault};
use std::alloc::{AllocError, Global};

#[derive(Clone, Copy)]
struct OpenedText<'a> {
    text: &'a [u8],
    ghost small: { length text.now ≤ 2048 },
}

impl<'a> OpenedText<'a> {
    ghost use Rattle.std.specs.Prelude.{◌≡◌};
    ghost use Rattle.plain.specs.Questions.{summary};

    fn summary(&self) -> Summary
        ensures { result ≡ summary self.now.text.now }
    {
        let value = measured::<Pair<Totals, Tokens>>(self.text);
        sum_up(&value.left, &value.right)
    }
}

impl<'a> Replies for OpenedText<'a> {
    ghost use Rattle.std.specs.Prelude.{Some, refl};
    ghost use Rattle.script.specs.Engines.{opened};
    ghost use Rattle.script.specs.Early.{early_from};

    ghost prints = { λ i s ls. early_from i (Some (opened s.text.now)) ls };

    fn reply(&mut self, line: &[u8]) -> Result<Answered, LineFault> {
        match read_call(line)? {
            Call::Whole => Ok(Answered {
                answer: Answer::Whole(self.summary()),
                size: self.text.len() as u32,
            }),
            _ => Err(LineFault::Call(CallFault::NotAllowed)),
        }
    }

    ghost ends = { λ i s. refl };
}

pub struct Early;

impl Engine for Early {
    ghost use Rattle.script.specs.Early.{early_from, early_waits};

    ghost prints = { early_from };

    fn answer_lines(
        heap: Global,
        text: &[u8],
        lines: Lines,
        out: &mut Vec<u8>,
    ) -> Result<(), AllocError> {
        print_replies(&mut OpenedText { text }, lines, out)
    }

    ghost waits = { early_waits };
}
