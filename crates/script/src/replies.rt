// What is printed of the lines of an opened text, with the replies to them.
ghost use Rattle.std.specs.Prelude.{◌≡◌, ℕ, suc, List, [], ◌∷◌, ◌++◌, is_ok, if◌then◌else◌, OnOk};
ghost use Rattle.plain.specs.Script.{printed};
ghost use Rattle.script.specs.Engines.{line_fields};
ghost use Rattle.script.specs.Input.{left, next_number};

use crate::input::Lines;
use lines::printing::{print_answer, print_fault};
use plain::answers::Answer;
use plain::faults::{LineFault, ScriptFault};
use std::alloc::AllocError;

// What an accepted call gave, and how many bytes the text has after it.
#[derive(Clone, Copy)]
pub struct Answered {
    pub answer: Answer<u32>,
    pub size: u32,
}

// Gives the replies to the lines of an opened text, one after the other.
pub trait Replies {
    // What is printed of lines, from the one of this number on.
    ghost prints: { ℕ → Self → List (List ℕ) → List ℕ };

    fn reply(&mut self, line: &[u8]) -> Result<Answered, LineFault>
        ensures { (i : ℕ) (more : List (List ℕ)) → prints i self.old (line.now ∷ more) ≡ printed (line_fields i result) ++ prints (suc i) self.new more };

    ghost ends: { (i : ℕ) (s : Self) → prints i s [] ≡ [] };
}

pub(crate) fn print_reply(
    out: &mut Vec<u8>,
    number: usize,
    reply: Result<Answered, LineFault>,
) -> Result<(), AllocError>
    ensures { out.new.items ≡ (if is_ok result then out.old.items ++ printed (line_fields number reply) else out.old.items) }
{
    match reply {
        Ok(Answered { answer, size }) => print_answer(out, size, answer),
        Err(fault) => print_fault(
            out,
            ScriptFault {
                line: number,
                fault,
            },
        ),
    }
}

// Prints of the lines that are left.
pub fn print_replies<R: Replies>(
    replies: &mut R,
    lines: Lines,
    out: &mut Vec<u8>,
) -> Result<(), AllocError>
    ensures { OnOk result (out.new.items ≡ out.old.items ++ R.prints (next_number lines.entry) replies.old (left lines.entry)) }
{
    for line in lines {
        print_reply(out, line.number, replies.reply(line.bytes))?;
    }
    Ok(())
}
