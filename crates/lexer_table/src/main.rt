// Every step of the lexer, to be compared with the table in `stdout`: for each state and each 16 bytes,
// the next states, with a + where the byte begins a token.
#![tactic(auto)]

ghost use Rattle.std.specs.Prelude.{◌≡◌};
ghost use Rattle.plain.specs.Tokens.{step};
ghost use Rattle.lexer.specs.Numbers.{number_of};

use lexer::reading::{Next, step};
use std::io;

fn sign(begins: bool) -> char {
    if begins { '+' } else { ' ' }
}

// A number that is no state's steps as the rules say too.
fn step_from(number: u8, byte: u8) -> Next
    ensures state { number_of result.state ≡ (step number byte).0 }
    ensures begins { result.begins ≡ (step number byte).1 }
{
    step(number, byte)
}

fn main(rt: HostRuntime) -> io::Result<()> {
    for number in 0..13u8 {
        for row in 0..16u8 {
            print!(rt; "{number:2} {row:x}0")?;
            for column in 0..16u8 {
                let next = step_from(number, row * 16 + column);
                print!(rt; " {}{:<2}", sign(next.begins), next.state.number())?;
            }
            println!(rt; "|")?;
        }
    }
    Ok(())
}
