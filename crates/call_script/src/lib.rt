// Scripts on the engine: from the bytes of all lines to the bytes of all that is printed.
#![tactic(auto)]

ghost use Rattle.std.specs.Prelude.{◌≡◌, IfOk, IfSome, OnOk};
ghost use Rattle.std.specs.Io.KnownBytes.{Appends};
ghost use Rattle.plain.specs.Script.{panel};

use answering::ByCalls;
use script::engine::run_on;
use script::programs::answer_input;
use std::alloc::{AllocError, Global};
use std::io;
use std::io::{Read, Write};

pub mod answering;
mod collecting;
mod engine;

// All that is printed for the whole input. The only error is want of memory.
pub fn run_script(heap: Global, input: &[u8]) -> Result<Vec<u8>, AllocError>
    ensures { IfOk result (λ out. out.items ≡ panel input.now) }
{
    run_on::<ByCalls>(heap, input)
}

// Writes all that is printed for the script that is read.
pub fn answer_script<R: Read, W: Write>(
    heap: Global,
    reader: &mut R,
    writer: &mut W,
) -> io::Result<()>
    ensures { OnOk result (IfSome (R.remaining reader.old) (λ xs. Appends (W.contents writer.old) (W.contents writer.new) (panel xs))) }
{
    answer_input::<ByCalls, R, W>(heap, reader, writer)
}
