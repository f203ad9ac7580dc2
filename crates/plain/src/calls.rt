// What may be asked of an opened text, over any carrier of bytes.
#[derive(Clone, Copy)]
pub enum Call<B> {
    Insert { at: u32, bytes: B },
    Delete { from: u32, to: u32 },
    Cut { from: u32, to: u32 },
    Paste { at: u32 },
    Discard,
    Mark { at: u32, label: u16 },
    LineOf { at: u32 },
    StartOf { line: u32 },
    TokenAt { at: u32 },
    TokenNumber { number: u32 },
    BracketAt { at: u32 },
    MarkFrom { at: u32 },
    Range { from: u32, to: u32 },
    Whole,
    Audit { scratch: u32 },
}

// What a line of a script asks for: a text to open, or a call.
#[derive(Clone, Copy)]
pub enum Request<B> {
    Open(B),
    Call(Call<B>),
}
