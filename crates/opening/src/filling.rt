// The bytes of a store as the leaves of a tree.
ghost use Rattle.std.specs.Prelude.{◌≡◌};
ghost use Rattle.opening.specs.Filled.{PiecePushed, Filled};

use measures::Measure;
use pieces::measuring::measure_row;
use pieces::rows::PieceRow;
use slots::arena::Arena;
use slots::records::{LEVELS, Side, Tree, Unsound};
use stores::Store;
use tree::ends::push_down;

// The length of a piece of an opened text; the last may be shorter.
pub const BLOCK: u32 = 256;

// One piece more at the back, measured from the store.
fn push_piece<S: Store, M: Measure<Item = u8>>(
    arena: &mut Arena<PieceRow, M>,
    store: &mut S,
    tree: Tree,
    row: PieceRow,
) -> Result<Tree, Unsound>
    ensures same { arena.new.slots.ghost_name ≡ arena.old.slots.ghost_name }
    ensures pushed { PiecePushed M.Measure.means S.Store.contents store.old store.new arena.old.slots.now arena.new.slots.now arena.old.free arena.new.free tree row result }
{
    let value = measure_row::<S, M>(store, row)?;
    let i = arena.put_leaf(row, value)?;
    push_down(arena, LEVELS, Side::Back, tree, i)
}

// The tree of all bytes of the store, each read once.
pub fn fill<S: Store, M: Measure<Item = u8>>(
    arena: &mut Arena<PieceRow, M>,
    store: &mut S,
) -> Result<Tree, Unsound>
    ensures same { arena.new.slots.ghost_name ≡ arena.old.slots.ghost_name }
    ensures filled { Filled M.Measure.means S.Store.contents store.old store.new arena.old.slots.now arena.new.slots.now arena.old.free arena.new.free result }
{
    let length = store.len();
    let mut text = Tree::Empty;
    for block in 0..length.div_ceil(BLOCK) {
        let address = block * BLOCK;
        let row = PieceRow {
            address,
            length: (length - address).min(BLOCK),
        };
        text = push_piece(arena, store, text, row)?;
    }
    Ok(text)
}
