// What a line asks for.
ghost use Rattle.std.specs.Prelude.{◌≡◌, [], ◌∷◌, length, IfErr, MatchOption, ◌≢◌};
ghost use Rattle.std.specs.Option.{option_map};
ghost use Rattle.std.specs.Result.{result_ok};
ghost use Rattle.plain.specs.Script.{plainly, with_one, with_two, at_most, hexes, read_fields, request_of_line};
ghost use Rattle.plain.specs.declared.calls.Request.TheVariants.{Open};
ghost use Rattle.plain.specs.declared.faults.LineFault.TheVariants.{Unreadable};
ghost use Rattle.lines.specs.Bytes.{bytes_of};
ghost use Rattle.lines.specs.Requests.{map_call, map_request};

use crate::fields::{read_label, read_number, split_once};
use crate::hex::Hex;
use plain::calls::{Call, Request};
use plain::faults::LineFault;

const TAB: u8 = b'\t';

const LINE: usize = 4200;

const ORIGINAL: usize = 2048;
// The audit is lent a byte for each slot.
const SCRATCH: u32 = 168;

fn read_alone<'a>(letter: u8) -> Option<Call<Hex<'a>>>
    ensures { option_map (map_call bytes_of) result ≡ plainly (letter ∷ []) }
{
    match letter {
        b'R' => Some(Call::Discard),
        b'W' => Some(Call::Whole),
        b'A' => Some(Call::Audit { scratch: SCRATCH }),
        _ => None,
    }
}

fn read_one<'a>(letter: u8, field: &[u8]) -> Option<Call<Hex<'a>>>
    ensures { option_map (map_call bytes_of) result ≡ with_one (letter ∷ []) field.now }
{
    let n = read_number(field, u32::MAX)?;
    match letter {
        b'P' => Some(Call::Paste { at: n }),
        b'L' => Some(Call::LineOf { at: n }),
        b'S' => Some(Call::StartOf { line: n }),
        b'T' => Some(Call::TokenAt { at: n }),
        b'N' => Some(Call::TokenNumber { number: n }),
        b'B' => Some(Call::BracketAt { at: n }),
        b'F' => Some(Call::MarkFrom { at: n }),
        _ => None,
    }
}

fn read_two<'a>(letter: u8, first: &[u8], second: &'a [u8]) -> Option<Call<Hex<'a>>>
    ensures { option_map (map_call bytes_of) result ≡ with_two (letter ∷ []) first.now second.now }
{
    let at = read_number(first, u32::MAX)?;
    match letter {
        b'I' => Some(Call::Insert {
            at,
            bytes: Hex::read(second)?,
        }),
        b'D' => Some(Call::Delete {
            from: at,
            to: read_number(second, u32::MAX)?,
        }),
        b'C' => Some(Call::Cut {
            from: at,
            to: read_number(second, u32::MAX)?,
        }),
        b'M' => Some(Call::Mark {
            at,
            label: read_label(second)?,
        }),
        b'G' => Some(Call::Range {
            from: at,
            to: read_number(second, u32::MAX)?,
        }),
        _ => None,
    }
}

fn read_open<'a>(field: &'a [u8]) -> Option<Request<Hex<'a>>>
    ensures { option_map (map_request bytes_of) result ≡ option_map Open (at_most 2048 (hexes field.now)) }
{
    let bytes = Hex::read(field)?;
    (bytes.len() <= ORIGINAL).then_some(Request::Open(bytes))
}

// A record's name is one letter.
fn letter_of(name: &[u8]) -> Option<u8>
    ensures { MatchOption result (length name.now ≢ 1) (λ b. name.now ≡ b ∷ []) }
{
    match name {
        [letter] => Some(*letter),
        _ => None,
    }
}

fn one_field<'a>(name: &[u8]) -> Option<Request<Hex<'a>>>
    ensures { option_map (map_request bytes_of) result ≡ read_fields (name.now ∷ []) }
{
    let letter = letter_of(name)?;
    Some(Request::Call(read_alone(letter)?))
}

fn two_fields<'a>(name: &[u8], field: &'a [u8]) -> Option<Request<Hex<'a>>>
    ensures { option_map (map_request bytes_of) result ≡ read_fields (name.now ∷ (field.now ∷ [])) }
{
    let letter = letter_of(name)?;
    if letter == b'O' {
        return read_open(field);
    }
    Some(Request::Call(read_one(letter, field)?))
}

fn three_fields<'a>(name: &[u8], first: &[u8], second: &'a [u8]) -> Option<Request<Hex<'a>>>
    ensures { option_map (map_request bytes_of) result ≡ read_fields (name.now ∷ (first.now ∷ (second.now ∷ []))) }
{
    let letter = letter_of(name)?;
    Some(Request::Call(read_two(letter, first, second)?))
}

fn read_request<'a>(line: &'a [u8]) -> Option<Request<Hex<'a>>>
    ensures { option_map (map_request bytes_of) result ≡ request_of_line line.now }
{
    if line.len() > LINE {
        return None;
    }
    let Some((name, rest)) = split_once(line, TAB) else {
        return one_field(line);
    };
    let Some((first, second)) = split_once(rest, TAB) else {
        return two_fields(name, rest);
    };
    match split_once(second, TAB) {
        None => three_fields(name, first, second),
        Some(_) => None,
    }
}

pub fn read_line<'a>(line: &'a [u8]) -> Result<Request<Hex<'a>>, LineFault>
    ensures value { option_map (map_request bytes_of) (result_ok result) ≡ request_of_line line.now }
    ensures fault { IfErr result (λ f. f ≡ Unreadable) }
{
    read_request(line).ok_or(LineFault::Unreadable)
}
