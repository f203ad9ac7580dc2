// What the engine searches for among tokens and brackets.
ghost use Rattle.std.specs.Prelude.{nat_le};
ghost use Rattle.lexer.specs.Reading.{row_at};
ghost use Rattle.lexer.specs.Numbers.{number_of};
ghost use Rattle.lexer.specs.RowValues.{tokens_kept, strays_kept};

use crate::states::State;
use crate::tokens::{Rows, Tokens, whole};
use measures::Probe;

// At least `count` tokens begun, read from state 0.
#[derive(Clone, Copy)]
pub struct TokensBegun {
    pub count: u32,
}

impl Probe<Tokens> for TokensBegun {
    ghost says = { λ p v. nat_le p.count (row_at v 0).tokens };

    ghost keeps = { λ p. tokens_kept 0 p.count };

    fn holds(&self, v: &Rows) -> bool {
        whole(v).tokens >= self.count
    }
}

// At least `count` stray closes, read from `state`: after an open, the first stray is its partner.
#[derive(Clone, Copy)]
pub struct StraysReached {
    pub state: State,
    pub count: u32,
}

impl Probe<Tokens> for StraysReached {
    ghost says = { λ p v. nat_le p.count (row_at v (number_of p.state)).strays };

    ghost keeps = { λ p. strays_kept (number_of p.state) p.count };

    fn holds(&self, v: &Rows) -> bool {
        self.state.row_of(v).strays >= self.count
    }
}
