// What the programs do with a script.
ghost use Rattle.std.specs.Prelude.{IfSome, None, OnOk};
ghost use Rattle.std.specs.Io.KnownBytes.{Appends};
ghost use Rattle.plain.specs.Script.{lines_of};

use crate::engine::{Engine, run_on};
use std::alloc::Global;
use std::io;
use std::io::{Read, Write};

// Writes what the engine prints for the script that is read.
pub fn answer_input<E: Engine, R: Read, W: Write>(
    heap: Global,
    reader: &mut R,
    writer: &mut W,
) -> io::Result<()>
    ensures { OnOk result (IfSome (R.remaining reader.old) (λ xs. Appends (W.contents writer.old) (W.contents writer.new) (E.prints 1 None (lines_of xs)))) }
{
    let mut input = Vec::new(heap);
    reader.read_to_end(&mut input)?;
    let output = run_on::<E>(heap, &input)?;
    writer.write_all(&output)
}
