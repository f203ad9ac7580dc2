// A printed line: its fields, with tabs between and a line feed at the end.
ghost use Rattle.std.specs.Prelude.{◌≡◌, [], ◌∷◌, ◌++◌, map, is_ok, if◌then◌else◌, nat_eq};
ghost use Rattle.plain.specs.Script.{printed};
ghost use Rattle.lines.specs.Columns.{Appends, column_bytes};

use itoa::Buffer;
use std::alloc::AllocError;

#[derive(Clone, Copy)]
pub enum Column<'a> {
    Word(&'a [u8]),
    Number(u64),
}

impl<'a> From<u32> for Column<'a> {
    ghost use Rattle.std.specs.Prelude.{◌≡◌};
    ghost use Rattle.lines.specs.declared.columns.Column.TheVariants.{Number};

    ghost from_gives = { λ n column. column ≡ Number n };

    fn from(n: u32) -> Column<'a> {
        Column::Number(u64::from(n))
    }
}

// The digits are made first: of what a failed `write!` wrote nothing is known.
fn put_column(out: &mut Vec<u8>, column: Column) -> Result<(), AllocError>
    ensures { Appends result out.old.items (column_bytes column.entry) out.new.items }
{
    match column {
        Column::Word(bytes) => out.extend_from_slice(bytes),
        Column::Number(n) => out.extend_from_slice(Buffer::new().format(n).as_bytes()),
    }
}

// The tab before every column but the first.
fn put_gap(out: &mut Vec<u8>, i: usize) -> Result<(), AllocError>
    ensures { Appends result out.old.items (if nat_eq i 0 then [] else 9 ∷ []) out.new.items }
{
    if i > 0 {
        out.push(b'\t')?;
    }
    Ok(())
}

fn put_line(out: &mut Vec<u8>, columns: &[Column]) -> Result<(), AllocError>
    ensures { Appends result out.old.items (printed (map column_bytes columns.now)) out.new.items }
{
    for (i, column) in columns.iter().enumerate() {
        put_gap(out, i)?;
        put_column(out, *column)?;
    }
    out.push(b'\n')?;
    Ok(())
}

// Appends the line, or nothing where there is no memory.
pub fn print_line(out: &mut Vec<u8>, columns: &[Column]) -> Result<(), AllocError>
    ensures { out.new.items ≡ (if is_ok result then out.old.items ++ printed (map column_bytes columns.now) else out.old.items) }
{
    let kept = out.len();
    let printed = put_line(out, columns);
    if printed.is_err() {
        out.truncate(kept);
    }
    printed
}
