// Parts of a text as they are read from where they begin.
ghost use Rattle.std.specs.Prelude.{◌≡◌};
ghost use Rattle.opens.specs.Parts.{part_from_slot, held_by};

use lexer::states::State;
use lexer::tokens::Rows;
use measures::pair::Pair;
use measures::totals::Totals;
use pieces::rows::PieceRow;
use slots::records::Unsound;

// Where a part begins: its offset in the text, and the state there.
#[derive(Clone, Copy)]
pub struct Start {
    pub offset: u32,
    pub state: State,
}

// Where a part ends, its closes that have no open in it, and its opens that have no close in it.
#[derive(Clone, Copy)]
pub struct Part {
    pub end: Start,
    pub strays: u32,
    pub unmet: u32,
}

// An open in a row that begins at `start`, by its rank among the row's unmet opens, counted from 1.
#[derive(Clone, Copy)]
pub struct Held {
    pub row: PieceRow,
    pub start: Start,
    pub rank: u32,
}

// The open was found, or it lies further left and so many closes must be met first.
#[derive(Clone, Copy)]
pub enum Back {
    At(Held),
    Before(u32),
}

// A part need not be entered, or it must: since the open is of that rank in it, or since the limit lies inside.
#[derive(Clone, Copy)]
pub enum Visit {
    Past(Back),
    Into { closes: u32, rank: Option<u32> },
}

// A part with this value.
pub fn part_from<V: Copy>(value: &Pair<Pair<Totals, Rows>, V>, start: Start) -> Part
    ensures { result ≡ part_from_slot value.now start }
{
    let row = start.state.row_of(&value.left.right);
    Part {
        end: Start {
            offset: start.offset.saturating_add(value.left.left.bytes),
            state: row.state,
        },
        strays: row.strays,
        unmet: row.unmet,
    }
}

// What was found in a part that was entered. Where the open is of a rank in it, it must have been found.
pub fn hold(rank: Option<u32>, found: Result<Back, Unsound>) -> Result<Back, Unsound>
    ensures { result ≡ held_by rank found }
{
    match (rank, found?) {
        (Some(_), Back::Before(_)) => Err(Unsound),
        (_, back) => Ok(back),
    }
}
