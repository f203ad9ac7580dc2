// The calls of all lines as one list, which holds the bytes to insert as parts of one lent slice.
ghost use Rattle.std.specs.Prelude.{◌≡◌, ◌++◌, map, length, is_ok, IfOk, if◌then◌else◌, OnOk};
ghost use Rattle.lines.specs.Bytes.{bytes_of};
ghost use Rattle.lines.specs.Requests.{map_call};
ghost use Rattle.calls.specs.Calls.{plain_calls};
ghost use Rattle.script.specs.Input.{left};
ghost use Rattle.call_script.specs.Listed.{calls_of, inserted, all_inserted};

use lines::hex::Hex;
use plain::calls::Call;
use script::input::Lines;
use script::requests::read_call;
use std::alloc::{AllocError, Global};

// Lines that ask for no call are passed over. No `filter_map`: its proof wants the `Hex` itself as a function of the line.
pub(crate) fn read_calls<'a>(
    heap: Global,
    lines: Lines<'a>,
) -> Result<Vec<Call<Hex<'a>>>, AllocError>
    ensures { IfOk result (λ v. map (map_call bytes_of) v.items ≡ calls_of (left lines.entry)) }
{
    let mut calls = Vec::new(heap);
    for line in lines {
        if let Ok(call) = read_call(line.bytes) {
            calls.push(call)?;
        }
    }
    Ok(calls)
}

// Appends the bytes that the call inserts.
fn decode_call(call: Call<Hex>, out: &mut Vec<u8>) -> Result<(), AllocError>
    ensures { out.new.items ≡ (if is_ok result then out.old.items ++ inserted (map_call bytes_of call.entry) else out.old.items) }
{
    match call {
        Call::Insert { bytes, .. } => bytes.decode_into(out),
        _ => Ok(()),
    }
}

// Appends the bytes that the calls insert, one after the other.
pub(crate) fn decode_calls(calls: &[Call<Hex>], out: &mut Vec<u8>) -> Result<(), AllocError>
    ensures { OnOk result (out.new.items ≡ out.old.items ++ all_inserted (map (map_call bytes_of) calls.now)) }
{
    for call in calls {
        decode_call(*call, out)?;
    }
    Ok(())
}

// The same call, with these bytes if it inserts any. A `map` of `Call` would have the same arms, and this one caller.
fn with_bytes<'a>(call: Call<Hex>, bytes: &'a [u8]) -> Call<&'a [u8]>
    ensures { result ≡ map_call (λ _. bytes.entry) call.entry }
{
    match call {
        Call::Insert { at, .. } => Call::Insert { at, bytes },
        Call::Delete { from, to } => Call::Delete { from, to },
        Call::Cut { from, to } => Call::Cut { from, to },
        Call::Paste { at } => Call::Paste { at },
        Call::Discard => Call::Discard,
        Call::Mark { at, label } => Call::Mark { at, label },
        Call::LineOf { at } => Call::LineOf { at },
        Call::StartOf { line } => Call::StartOf { line },
        Call::TokenAt { at } => Call::TokenAt { at },
        Call::TokenNumber { number } => Call::TokenNumber { number },
        Call::BracketAt { at } => Call::BracketAt { at },
        Call::MarkFrom { at } => Call::MarkFrom { at },
        Call::Range { from, to } => Call::Range { from, to },
        Call::Whole => Call::Whole,
        Call::Audit { scratch } => Call::Audit { scratch },
    }
}

// How many bytes a call inserts.
fn inserted_len(call: Call<Hex>) -> usize
    ensures { result ≡ length (inserted (map_call bytes_of call.entry)) }
{
    match call {
        Call::Insert { bytes, .. } => bytes.len(),
        _ => 0,
    }
}

// Lends each call its part of the bytes.
pub(crate) fn lend_bytes<'a>(
    heap: Global,
    calls: &[Call<Hex>],
    bytes: &'a [u8],
) -> Result<Vec<Call<&'a [u8]>>, AllocError>
    requires { bytes.now ≡ all_inserted (map (map_call bytes_of) calls.now) }
    ensures { IfOk result (λ v. plain_calls v.items ≡ map (map_call bytes_of) calls.now) }
{
    let mut lent = Vec::new(heap);
    let mut rest = bytes;
    for call in calls {
        let (own, more) = rest.split_at(inserted_len(*call));
        lent.push(with_bytes(*call, own))?;
        rest = more;
    }
    Ok(lent)
}
