// The same reads and appends over every kind of store, at its borders, and joined twice deep.
#![tactic(auto)]

use std::io;
use stores::Store;
use stores::buffer::Buffer;
use stores::copy_out::copy_out;
use stores::filled::Filled;
use stores::joined::{Unjoined, join};
use stores::original::Original;

fn tell<S: Store>(rt: &HostRuntime, store: &S) -> io::Result<()> {
    let length = store.len();
    let spare = store.spare();
    let count = store.count();
    println!(rt; "  length {length}, spare {spare}, reads {count}")
}

fn read<S: Store>(rt: &HostRuntime, store: &mut S, places: &[u32]) -> io::Result<()> {
    for at in places {
        match store.read(*at) {
            Some(byte) => println!(rt; "  read {at}: {byte}")?,
            None => println!(rt; "  read {at}: none")?,
        }
    }
    Ok(())
}

// Nothing, one more than the buffers here hold, then two appends that fill them, and one byte too many.
fn append<S: Store>(rt: &HostRuntime, store: &mut S) -> io::Result<()> {
    let letters = b"abcdefghi";
    for count in [0, 9, 2, 6, 1] {
        match store.append(&letters[..count]) {
            Ok(at) => println!(rt; "  append {count}: at {at}")?,
            Err(full) => {
                let number = full.number();
                let length = full.length;
                let spare = full.spare;
                println!(rt; "  append {count}: refused {number}, length {length}, spare {spare}")?
            }
        }
    }
    Ok(())
}

fn copy<S: Store>(rt: &HostRuntime, store: &mut S, from: u32) -> io::Result<()> {
    let mut buffer = *b"................";
    let copied = copy_out(store, from, &mut buffer);
    println!(rt; "  copied {copied} from {from}: {buffer:?}")
}

fn exercise<S: Store>(
    rt: &HostRuntime,
    name: &str,
    store: &mut S,
    places: &[u32],
) -> io::Result<()> {
    println!(rt; "{name}")?;
    read(rt, store, places)?;
    append(rt, store)?;
    read(rt, store, places)?;
    copy(rt, store, 1)?;
    tell(rt, store)
}

fn refused<F: Store + Drop, B: Store + Drop>(
    rt: &HostRuntime,
    name: &str,
    unjoined: Unjoined<F, B>,
) -> io::Result<()> {
    let number = unjoined.fault.number();
    println!(rt; "{name}: refused {number}")?;
    tell(rt, &unjoined.front)?;
    tell(rt, &unjoined.back)
}

fn exercise_joined<F: Store + Drop, B: Store + Drop>(
    rt: &HostRuntime,
    name: &str,
    front: F,
    back: B,
    places: &[u32],
) -> io::Result<()> {
    match join(front, back) {
        Ok(mut both) => exercise(rt, name, &mut both, places),
        Err(unjoined) => refused(rt, name, unjoined),
    }
}

fn kinds(rt: &HostRuntime) -> io::Result<()> {
    let mut space = [0u8; 8];
    exercise(
        rt,
        "original",
        &mut Original::new(b"hello"),
        &[0, 4, 5, u32::MAX],
    )?;
    exercise(rt, "empty original", &mut Original::new(b""), &[0])?;
    exercise(rt, "buffer", &mut Buffer::new(&mut space), &[0, 7, 8])?;
    exercise(rt, "filled with 3", &mut Filled::new(b'z', 3), &[0, 2, 3])?;
    exercise(rt, "filled with 0", &mut Filled::new(b'z', 0), &[0])?;
    exercise(
        rt,
        "filled with the most",
        &mut Filled::new(b'z', u32::MAX),
        &[0, u32::MAX - 1, u32::MAX],
    )
}

// The places are the first, the last of each part, the first of the next, and the end.
fn joined(rt: &HostRuntime) -> io::Result<()> {
    let mut space = [0u8; 8];
    exercise_joined(
        rt,
        "original, buffer",
        Original::new(b"hello"),
        Buffer::new(&mut space),
        &[0, 4, 5, 12, 13],
    )?;
    match join(Original::new(b"hello"), Buffer::new(&mut space)) {
        Ok(back) => exercise_joined(
            rt,
            "filled, (original, buffer)",
            Filled::new(b'z', 2),
            back,
            &[0, 1, 2, 6, 7, 14, 15],
        )?,
        Err(unjoined) => refused(rt, "joined once", unjoined)?,
    }
    match join(Filled::new(b'z', 2), Original::new(b"hello")) {
        Ok(front) => exercise_joined(
            rt,
            "(filled, original), buffer",
            front,
            Buffer::new(&mut space),
            &[0, 1, 2, 6, 7, 14, 15],
        ),
        Err(unjoined) => refused(rt, "joined once", unjoined),
    }
}

fn largest(rt: &HostRuntime) -> io::Result<()> {
    let mut space = [0u8; 8];
    exercise_joined(
        rt,
        "as large as can be",
        Filled::new(b'z', u32::MAX - 8),
        Buffer::new(&mut space),
        &[u32::MAX - 9, u32::MAX - 8, u32::MAX - 1, u32::MAX],
    )?;
    exercise_joined(
        rt,
        "one too many",
        Filled::new(b'z', u32::MAX - 7),
        Buffer::new(&mut space),
        &[0],
    )?;
    exercise_joined(
        rt,
        "the most before nothing",
        Filled::new(b'z', u32::MAX),
        Filled::new(b'z', 0),
        &[u32::MAX - 1, u32::MAX],
    )?;
    exercise_joined(
        rt,
        "one before the most",
        Filled::new(b'z', 1),
        Filled::new(b'z', u32::MAX),
        &[0],
    )
}

fn main(rt: HostRuntime) -> io::Result<()> {
    kinds(&rt)?;
    joined(&rt)?;
    largest(&rt)
}
