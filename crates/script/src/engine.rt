// A script on any engine.
ghost use Rattle.std.specs.Prelude.{◌≡◌, ℕ, ◌≤◌, List, ◌++◌, length, IfOk, Some, None, OnOk};
ghost use Rattle.plain.specs.Script.{State, lines_of, printed, answer_fields};
ghost use Rattle.plain.specs.declared.answers.Answer.TheVariants.{Done};
ghost use Rattle.lines.specs.Bytes.{bytes_of};
ghost use Rattle.script.specs.Engines.{opened, Waits};
ghost use Rattle.script.specs.Input.{left, next_number};

use crate::input::Lines;
use crate::replies::print_reply;
use crate::requests::read_open;
use lines::hex::Hex;
use lines::printing::print_answer;
use plain::answers::Answer;
use std::alloc::{AllocError, Global};

// Answers the lines after the one that opened a text.
pub trait Engine {
    // What is printed of lines, from the one of this number on, in a state of the plain script machine.
    ghost prints: { ℕ → State → List (List ℕ) → List ℕ };

    fn answer_lines(
        heap: Global,
        text: &[u8],
        lines: Lines,
        out: &mut Vec<u8>,
    ) -> Result<(), AllocError>
        requires { length text.now ≤ 2048 }
        ensures { OnOk result (out.new.items ≡ out.old.items ++ prints (next_number lines.entry) (Some (opened text.now)) (left lines.entry)) };

    ghost waits: { Waits prints };
}

// Opens the text, and answers the lines after that.
fn open_text<E: Engine>(
    heap: Global,
    bytes: Hex,
    lines: Lines,
    out: &mut Vec<u8>,
) -> Result<(), AllocError>
    requires { length (bytes_of bytes) ≤ 2048 }
    ensures { OnOk result (out.new.items ≡ out.old.items ++ (printed (answer_fields (length (bytes_of bytes.entry)) Done) ++ E.prints (next_number lines.entry) (Some (opened (bytes_of bytes.entry))) (left lines.entry))) }
{
    let mut text = Vec::new(heap);
    bytes.decode_into(&mut text)?;
    print_answer(out, bytes.len() as u32, Answer::Done)?;
    E::answer_lines(heap, text.as_slice(), lines, out)
}

fn print_script<E: Engine>(heap: Global, input: &[u8], out: &mut Vec<u8>) -> Result<(), AllocError>
    ensures { OnOk result (out.new.items ≡ out.old.items ++ E.prints 1 None (lines_of input.now)) }
{
    let mut lines = Lines::new(input);
    while let Some(line) = lines.next() {
        match read_open(line.bytes) {
            Ok(bytes) => return open_text::<E>(heap, bytes, lines, out),
            Err(fault) => print_reply(out, line.number, Err(fault))?,
        }
    }
    Ok(())
}

// All that is printed for the whole input. The only error is want of memory.
pub fn run_on<E: Engine>(heap: Global, input: &[u8]) -> Result<Vec<u8>, AllocError>
    ensures { IfOk result (λ out. out.items ≡ E.prints 1 None (lines_of input.now)) }
{
    let mut out = Vec::new(heap);
    print_script::<E>(heap, input, &mut out)?;
    Ok(out)
}
