// A measure of one's own, made as docs/MEASURES.md says: the sum of the digits of a text.
#![tactic(auto)]

mod digits;

use digits::{DigitSum, SumReached};
use measures::Probe;
use measures::pair::Pair;
use measures::scan::measured;
use measures::totals::Totals;
use std::io;

fn main(rt: HostRuntime) -> io::Result<()> {
    let text = b"wait 15 until open(90)\nlock 7\n";
    let value = measured::<Pair<Totals, DigitSum>>(text);
    println!(rt;
        "bytes {}, lines fed {}, digits {}",
        value.left.bytes, value.left.feeds, value.right
    )?;
    let reached = SumReached { sum: 22 }.holds(&value.right);
    println!(rt; "at least 22: {reached}")
}
