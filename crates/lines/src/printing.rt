// What is printed of an answer, and of a refusal.
ghost use Rattle.std.specs.Prelude.{◌≡◌, ◌++◌, is_ok, if◌then◌else◌};
ghost use Rattle.plain.specs.Script.{printed, kind_name_of, layer_name_of, match_name_of, answer_fields, fault_fields};

use crate::columns::{Column, print_line};
use plain::answers::{Answer, Bracket, Kind, Match};
use plain::faults::{Layer, ScriptFault};
use std::alloc::AllocError;

// The names are those of a script's lines, so they stand here and not on the types.
fn kind_name(kind: Kind) -> &'static [u8]
    ensures { result.now ≡ kind_name_of kind }
{
    match kind {
        Kind::Start => b"start",
        Kind::Blank => b"blank",
        Kind::Line => b"line",
        Kind::Word => b"word",
        Kind::Number => b"number",
        Kind::Sign => b"sign",
        Kind::Open => b"open",
        Kind::Close => b"close",
        Kind::Unfinished => b"unfinished",
        Kind::String => b"string",
        Kind::Comment => b"comment",
        Kind::Bad => b"bad",
        Kind::Key => b"key",
    }
}

fn match_name(fit: Match) -> &'static [u8]
    ensures { result.now ≡ match_name_of fit }
{
    match fit {
        Match::Fits => b"fits",
        Match::Crossed => b"crossed",
    }
}

fn layer_name(layer: Layer) -> &'static [u8]
    ensures { result.now ≡ layer_name_of layer }
{
    match layer {
        Layer::Store => b"store",
        Layer::Text => b"text",
        Layer::Script => b"script",
    }
}

// Appends the line, or nothing where there is no memory. `size` is the text's length after the call.
pub fn print_answer(out: &mut Vec<u8>, size: u32, answer: Answer<u32>) -> Result<(), AllocError>
    ensures { out.new.items ≡ (if is_ok result then out.old.items ++ printed (answer_fields size answer) else out.old.items) }
{
    match answer {
        Answer::Done => print_line(out, &[Column::Word(b"ok"), Column::from(size)]),
        Answer::Line(place) => print_line(
            out,
            &[Column::from(place.line), Column::from(place.column)],
        ),
        Answer::Start(Some(start)) => print_line(out, &[Column::from(start)]),
        Answer::Token(Some(token)) => print_line(
            out,
            &[
                Column::from(token.start),
                Column::from(token.end),
                Column::from(token.number),
                Column::Word(kind_name(token.kind)),
            ],
        ),
        Answer::Bracket(Some(Bracket::Paired { partner, fit })) => print_line(
            out,
            &[Column::from(partner), Column::Word(match_name(fit))],
        ),
        Answer::Bracket(Some(Bracket::Alone)) => print_line(out, &[Column::Word(b"alone")]),
        Answer::Mark(Some(mark)) => print_line(
            out,
            &[
                Column::from(mark.offset),
                Column::Number(u64::from(mark.label)),
            ],
        ),
        Answer::Range(value) => print_line(out, &[Column::from(value)]),
        Answer::Whole(whole) => print_line(
            out,
            &[
                Column::from(whole.bytes),
                Column::from(whole.lines),
                Column::from(whole.tokens),
                Column::from(whole.strays),
                Column::from(whole.unmet),
            ],
        ),
        Answer::Sound => print_line(out, &[Column::Word(b"sound")]),
        Answer::Start(None) | Answer::Token(None) | Answer::Bracket(None) | Answer::Mark(None) =>
            print_line(out, &[Column::Word(b"none")]),
    }
}

// Appends the line, or nothing where there is no memory.
pub fn print_fault(out: &mut Vec<u8>, refusal: ScriptFault) -> Result<(), AllocError>
    ensures { out.new.items ≡ (if is_ok result then out.old.items ++ printed (fault_fields refusal) else out.old.items) }
{
    print_line(
        out,
        &[
            Column::Word(b"refused"),
            Column::Number(u64::from(refusal.fault.number())),
            Column::Word(layer_name(refusal.fault.layer())),
            Column::Number(refusal.line as u64),
        ],
    )
}
