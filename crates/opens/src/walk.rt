// The walk over the parts of a text, the last one first.
ghost use Rattle.std.specs.Prelude.{◌≡◌};
ghost use Rattle.opens.specs.Walks.{Visited, SlotWalked, DigitWalked, TreeWalked, Walked};

use crate::ends::{digit_end, slot_end, tree_end};
use crate::parts::{Back, Held, Start, Visit, hold, part_from};
use lexer::states::State;
use pieces::head::TextRecord;
use slots::reading::{parts_at, row_at, spine_at};
use slots::records::{Digit, LEVELS, Side, Tree, Unsound};
use slots::values::value_at;

// A walk over the parts in these slots. What begins at the limit or after it does not count.
#[derive(Drop)]
struct Walk<'a, V> {
    slots: &'a [TextRecord<V>],
    limit: u32,
}

impl<V: Copy> Walk<'_, V> {
    // Judges the part in slot i by what was found after it: as many unmet opens as `closes` come after the one that is
    // sought. `inside` a part that ends by the limit, each of its parts does.
    fn visit(&self, i: u16, start: Start, inside: bool, later: Back) -> Result<Visit, Unsound>
        ensures { Visited self.now.slots.now i start self.now.limit inside later result }
    {
        let Back::Before(closes) = later else {
            return Ok(Visit::Past(later));
        };
        if start.offset >= self.limit {
            return Ok(Visit::Past(later));
        }
        let value = value_at(self.slots, i)?;
        let part = part_from(&value, start);
        if part.end.offset > self.limit {
            if inside {
                return Err(Unsound);
            }
            return Ok(Visit::Into { closes, rank: None });
        }
        if part.unmet > closes {
            let rank = part.unmet - closes;
            return Ok(Visit::Into {
                closes,
                rank: Some(rank),
            });
        }
        let left = (closes - part.unmet).saturating_add(part.strays);
        Ok(Visit::Past(Back::Before(left)))
    }

    // Below slot i, which is `height` nodes up.
    #[cycle(slots)]
    fn slot(
        &self,
        height: u8,
        i: u16,
        start: Start,
        inside: bool,
        later: Back,
    ) -> Result<Back, Unsound>
        ensures { SlotWalked self.now.slots.now height i start self.now.limit inside later result }
    {
        let visit = self.visit(i, start, inside, later)?;
        match visit {
            Visit::Past(back) => Ok(back),
            Visit::Into { closes, rank } => {
                if height > 0 {
                    let parts = parts_at(self.slots, i)?;
                    let found = self.digit(
                        height - 1,
                        parts,
                        start,
                        rank.is_some(),
                        Back::Before(closes),
                    );
                    return hold(rank, found);
                }
                let rank = rank.ok_or(Unsound)?;
                let row = row_at(self.slots, i)?;
                Ok(Back::At(Held { row, start, rank }))
            }
        }
    }

    // Below the slots of a digit, the last one first.
    #[cycle(slots)]
    fn digit(
        &self,
        height: u8,
        digit: Digit,
        start: Start,
        inside: bool,
        later: Back,
    ) -> Result<Back, Unsound>
        ensures { DigitWalked self.now.slots.now height digit start self.now.limit inside later result }
    {
        let first = digit.peel(Side::Front);
        match first.rest {
            None => self.slot(height, first.slot, start, inside, later),
            Some(rest) => {
                let next = slot_end(self.slots, first.slot, start)?;
                let found = self.digit(height, rest, next, inside, later)?;
                self.slot(height, first.slot, start, inside, found)
            }
        }
    }

    // In a tree whose slots are `height` nodes up.
    fn tree(
        &self,
        height: u8,
        tree: Tree,
        start: Start,
        inside: bool,
        later: Back,
    ) -> Result<Back, Unsound>
        ensures { TreeWalked self.now.slots.now height tree start self.now.limit inside later result }
    {
        match tree {
            Tree::Empty => Ok(later),
            Tree::Single(i) => self.slot(height, i, start, inside, later),
            Tree::Deep(i) => {
                let visit = self.visit(i, start, inside, later)?;
                match visit {
                    Visit::Past(back) => Ok(back),
                    Visit::Into { closes, rank } => {
                        if height >= LEVELS {
                            return Err(Unsound);
                        }
                        let level = spine_at(self.slots, i)?;
                        let inner = digit_end(self.slots, level.front, start)?;
                        let last = tree_end(self.slots, level.middle, inner)?;
                        let whole = rank.is_some();
                        let none = Back::Before(closes);
                        let back = self.digit(height, level.back, last, whole, none)?;
                        let middle = self.tree(height + 1, level.middle, inner, whole, back)?;
                        let front = self.digit(height, level.front, start, whole, middle);
                        hold(rank, front)
                    }
                }
            }
        }
    }
}

// The open that a close is paired with, where `closes` other closes stand between it and the limit, at which a piece
// begins: the open lies before the limit, or there is none.
pub fn walk_back<V: Copy>(
    slots: &[TextRecord<V>],
    tree: Tree,
    limit: u32,
    closes: u32,
) -> Result<Option<Held>, Unsound>
    ensures { Walked slots.now tree limit closes result }
{
    let start = Start {
        offset: 0,
        state: State::Start,
    };
    let walk = Walk { slots, limit };
    let back = walk.tree(0, tree, start, false, Back::Before(closes))?;
    match back {
        Back::At(held) => Ok(Some(held)),
        Back::Before(_) => Ok(None),
    }
}
