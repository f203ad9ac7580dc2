// Scripts: from the bytes of all lines to the bytes of all that is printed, by any engine.
#![tactic(auto)]

ghost use Rattle.std.specs.Prelude.{◌≡◌, IfOk, IfSome, OnOk};
ghost use Rattle.std.specs.Io.KnownBytes.{Appends};
ghost use Rattle.script.specs.Early.{early_panel};

use early::Early;
use engine::run_on;
use programs::answer_input;
use std::alloc::{AllocError, Global};
use std::io;
use std::io::{Read, Write};

pub mod early;
pub mod engine;
pub mod input;
pub mod programs;
pub mod replies;
pub mod requests;

// All that is printed for the whole input by the engine that only sums up. The only error is want of memory.
pub fn run_script(heap: Global, input: &[u8]) -> Result<Vec<u8>, AllocError>
    ensures { IfOk result (λ out. out.items ≡ early_panel input.now) }
{
    run_on::<Early>(heap, input)
}

// Writes all that is printed for the script that is read.
pub fn answer_script<R: Read, W: Write>(
    heap: Global,
    reader: &mut R,
    writer: &mut W,
) -> io::Result<()>
    ensures { OnOk result (IfSome (R.remaining reader.old) (λ xs. Appends (W.contents writer.old) (W.contents writer.new) (early_panel xs))) }
{
    answer_input::<Early, R, W>(heap, reader, writer)
}
