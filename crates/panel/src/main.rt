// The program: reads a script from standard input, and prints a line for each of its lines.
#![tactic(auto)]

use script::answer_script;
use std::io;

fn main(rt: HostRuntime) -> io::Result<()> {
    answer_script(rt.alloc(), &mut rt.stdin(), &mut rt.stdout())
}
