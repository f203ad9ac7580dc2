// What a token is called.
ghost use Rattle.std.specs.Prelude.{◌≡◌};
ghost use Rattle.plain.specs.Lists.{same};
ghost use Rattle.lexer.specs.Numbers.{number_of};
ghost use Rattle.lexer.specs.declared.states.State.{State};
ghost use Rattle.plain.specs.Tokens.{name_of, is_key, kind_of};

use crate::states::State;
use plain::answers::Kind;

// The kind of a token that ends in a state, unless it is a key.
fn name_of(state: State) -> Kind
    ensures { result ≡ name_of (number_of state) }
{
    match state {
        State::Start => Kind::Start,
        State::Blank => Kind::Blank,
        State::Line => Kind::Line,
        State::Word => Kind::Word,
        State::Number => Kind::Number,
        State::Sign => Kind::Sign,
        State::Open => Kind::Open,
        State::Close => Kind::Close,
        State::Quoted | State::Escaped => Kind::Unfinished,
        State::String => Kind::String,
        State::Comment => Kind::Comment,
        State::Bad => Kind::Bad,
    }
}

// One name for `==` on bytes: as a `match` on the six words, `is_key` was not proved.
fn reads(word: &[u8], key: &[u8]) -> bool
    ensures { result ≡ same word.now key.now }
{
    word == key
}

pub fn is_key(word: &[u8]) -> bool
    ensures { result ≡ is_key word.now }
{
    reads(word, b"open")
        || reads(word, b"lock")
        || reads(word, b"wait")
        || reads(word, b"until")
        || reads(word, b"if")
        || reads(word, b"end")
}

impl State {
    // The kind of a token with these bytes that ends in this state.
    pub fn kind_of(self, bytes: &[u8]) -> Kind
        ensures { result ≡ kind_of (number_of self) bytes.now }
    {
        if self == State::Word && is_key(bytes) {
            Kind::Key
        } else {
            name_of(self)
        }
    }
}

// The same, where the token ends in a state or in any number.
pub fn kind_of<N: Into<State>>(state: N, bytes: &[u8]) -> Kind
    ensures { (s : State) × N.converts state s × (result ≡ kind_of (number_of s) bytes.now) }
{
    state.into().kind_of(bytes)
}
