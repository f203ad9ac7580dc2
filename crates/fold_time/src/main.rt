// How long it takes to measure 2,048 bytes, one after another: the least of 500 turns goes to standard error.
#![tactic(auto)]

use lexer::tokens::Tokens;
use measures::longest_line::LongestLine;
use measures::pair::Pair;
use measures::scan::measured;
use measures::totals::Totals;
use std::io;
use std::time::Instant;

const LINE: &[u8; 64] = b"if lock(5) until open[2] # a note\nwait \"a\\\"b\" {x1 + 20} end))\n!\n";

fn text() -> [u8; 2048] {
    let mut bytes = [0u8; 2048];
    for (i, byte) in bytes.iter_mut().enumerate() {
        *byte = LINE[i % 64];
    }
    bytes
}

fn main(rt: HostRuntime) -> io::Result<()> {
    let bytes = text();
    let mut value = measured::<Pair<Pair<Totals, LongestLine>, Tokens>>(&bytes);
    let mut least = u128::MAX;
    for _ in 0..500 {
        let start = Instant::now(&rt)?;
        value = measured::<Pair<Pair<Totals, LongestLine>, Tokens>>(&bytes);
        least = least.min(start.elapsed(&rt)?.as_nanos());
    }
    eprintln!(rt; "{} ns per byte", least / 2048)?;
    let totals = value.left.left;
    let row = value.right[0];
    println!(rt;
        "bytes {}, line feeds {}, longest line {}",
        totals.bytes,
        totals.feeds,
        value.left.right.longest()
    )?;
    println!(rt;
        "state {}, tokens {}, strays {}, unmet {}",
        row.state.number(),
        row.tokens,
        row.strays,
        row.unmet
    )
}
