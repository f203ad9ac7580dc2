// Audits of concrete memories: sound ones, and one for each way of being unsound.
#![tactic(auto)]

use std::io;

mod letters;
mod marks;
mod own_source;
mod proven;

fn main(rt: HostRuntime) -> io::Result<()> {
    letters::tell(&rt)?;
    marks::tell(&rt)?;
    let accepts = proven::accepts();
    let refuses = proven::refuses();
    println!(rt; "proved from the contract alone: accepts {accepts}, refuses {refuses}")
}
