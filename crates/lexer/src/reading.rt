// The reading of one byte.
ghost use Rattle.std.specs.Prelude.{◌≡◌, true, false};
ghost use Rattle.plain.specs.Tokens.{begun as begunBy, stays as staysBy, step as stepBy};
ghost use Rattle.lexer.specs.Numbers.{number_of, state_of};
ghost use Rattle.lexer.specs.declared.states.State.{State};

use crate::states::State;

// The state after a byte, and whether the byte begins a token or goes on with the one before it. An enum of the two would
// hold a state either way, and each reader of it would take both apart.
#[derive(Clone, Copy)]
pub struct Next {
    pub state: State,
    pub begins: bool,
}

impl Next {
    fn begin(state: State) -> Next
        ensures state { result.state ≡ state }
        ensures begins { result.begins ≡ true }
    {
        Next {
            state,
            begins: true,
        }
    }

    fn go_on(state: State) -> Next
        ensures state { result.state ≡ state }
        ensures begins { result.begins ≡ false }
    {
        Next {
            state,
            begins: false,
        }
    }
}

// Where a byte leads that begins a token.
fn begun(byte: u8) -> State
    ensures state { result ≡ state_of (begunBy byte) }
    ensures number { number_of result ≡ begunBy byte }
{
    match byte {
        b'A'..=b'Z' | b'a'..=b'z' | b'_' => State::Word,
        b'0'..=b'9' => State::Number,
        b' ' | b'\t' | b'\r' => State::Blank,
        b'\n' => State::Line,
        b'"' => State::Quoted,
        b'#' => State::Comment,
        b'(' | b'[' | b'{' => State::Open,
        b')' | b']' | b'}' => State::Close,
        b'!' | b'&' | b'*'..=b'/' | b':'..=b'>' | b'|' => State::Sign,
        _ => State::Bad,
    }
}

// Whether a byte goes on with the blank, the word or the number before it.
fn stays(state: State, byte: u8) -> bool
    ensures { result ≡ staysBy (number_of state) byte }
{
    match (state, begun(byte)) {
        (State::Blank, State::Blank)
        | (State::Word, State::Word | State::Number)
        | (State::Number, State::Number) => true,
        _ => false,
    }
}

impl State {
    pub fn step(self, byte: u8) -> Next
        ensures state { number_of result.state ≡ (stepBy (number_of self) byte).0 }
        ensures begins { result.begins ≡ (stepBy (number_of self) byte).1 }
    {
        match (self, byte) {
            (State::Quoted | State::Escaped | State::Comment, b'\n') => Next::begin(State::Line),
            (State::Quoted, b'"') => Next::go_on(State::String),
            (State::Quoted, b'\\') => Next::go_on(State::Escaped),
            (State::Quoted | State::Escaped, _) => Next::go_on(State::Quoted),
            (State::Comment, _) => Next::go_on(State::Comment),
            _ if stays(self, byte) => Next::go_on(self),
            _ => Next::begin(begun(byte)),
        }
    }
}

// From a state or from any number.
pub fn step<N: Into<State>>(state: N, byte: u8) -> Next
    ensures { (s : State) × N.converts state s × (number_of result.state ≡ (stepBy (number_of s) byte).0) × (result.begins ≡ (stepBy (number_of s) byte).1) }
{
    state.into().step(byte)
}
