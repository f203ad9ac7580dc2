// What the questions answer. Offsets count from 0, lines and tokens from 1.

// The kind of a token: the name of the reading state after its last byte, or Key.
#[derive(Clone, Copy)]
pub enum Kind {
    Start,
    Blank,
    Line,
    Word,
    Number,
    Sign,
    Open,
    Close,
    Unfinished,
    String,
    Comment,
    Bad,
    Key,
}

// The bytes from `start` up to, not including, `end`.
#[derive(Clone, Copy)]
pub struct Token {
    pub start: u32,
    pub end: u32,
    pub number: u32,
    pub kind: Kind,
}

// A line's number, and how far into it.
#[derive(Clone, Copy)]
pub struct Place {
    pub line: u32,
    pub column: u32,
}

// Paired brackets fit if they are (), [] or {}.
#[derive(Clone, Copy)]
pub enum Match {
    Fits,
    Crossed,
}

// What stands against a bracket: its partner's offset, or nothing.
#[derive(Clone, Copy)]
pub enum Bracket {
    Paired { partner: u32, fit: Match },
    Alone,
}

#[derive(Clone, Copy)]
pub struct Mark {
    pub offset: u32,
    pub label: u16,
}

// A whole text in numbers; `strays` are closes without an open, `unmet` opens left over.
#[derive(Clone, Copy)]
pub struct Summary {
    pub bytes: u32,
    pub lines: u32,
    pub tokens: u32,
    pub strays: u32,
    pub unmet: u32,
}

// What an accepted call gives; V is the value of the added measure.
#[derive(Clone, Copy)]
pub enum Answer<V> {
    Done,
    Line(Place),
    Start(Option<u32>),
    Token(Option<Token>),
    Bracket(Option<Bracket>),
    Mark(Option<Mark>),
    Range(V),
    Whole(Summary),
    Sound,
}
