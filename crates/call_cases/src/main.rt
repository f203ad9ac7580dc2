// Scripts at the edges of what can be read: runs each file that is named, and prints what it gives below its name.
#![tactic(auto)]

use call_script::answer_script;
use std::fs::File;
use std::{env, io};

fn main(rt: HostRuntime) -> io::Result<()> {
    for name in env::args(&rt)?.skip(1) {
        println!(rt; "{name}")?;
        let mut file = File::open(&rt, name.as_str())?;
        answer_script(rt.alloc(), &mut file, &mut rt.stdout())?;
    }
    Ok(())
}
