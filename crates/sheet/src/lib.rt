// The sheet: a recipe's table as lines of text, and its reader.
#![tactic(auto)]

ghost use Rattle.std.specs.Prelude.{◌≡◌};
ghost use Rattle.numbers.specs.General.{laid};
ghost use Rattle.numbers.specs.Sizes.{ours};
ghost use Rattle.recipe.specs.Records.{kinds_of, xs_of, ys_of};
ghost use Rattle.table.specs.Reading.{rows_of, roots_of, reply_of};
ghost use Rattle.table.specs.Inner.{held_of};
ghost use Rattle.sheet.specs.Reading.{read_sheet, read_into};

use lines::Line;
use numbers::{Refusal, SheetSize};
use table::{Held, Room};

mod keywords;
mod lines;

// Reads a sheet, with so many places lent for rows and for roots, and holds what was read.
pub fn hold_sheet(bytes: &[u8], places: Room) -> Result<Held, Refusal>
    ensures { result ≡ held_of (read_sheet ours places.rows places.roots bytes.now) }
{
    if SheetSize::CEILING < bytes.len() {
        return Err(Refusal::LongSheet);
    }
    let room = places.within_ceilings();
    let mut held = Held::empty();
    // Beside the arrays for speed: for all that the compiler knows, a row stored into its array could change what stands behind it.
    let mut kept = held.kept;
    let mut at = 0;
    while let Some((line, next)) = lines::step_at(bytes, at, kept, room)? {
        at = next;
        match line {
            Line::Row(row) => {
                held.rows[kept.rows] = row;
                kept.rows += 1;
            }
            Line::Root(root) => {
                held.roots[kept.roots] = root;
                kept.roots += 1;
            }
        }
    }
    held.kept = kept;
    Ok(held)
}

// Reads a sheet into lent slices, row by row and root by root, and hands back how many were stored. After a refusal the slices are as before.
// The slices come one by one, as C lends them.
pub fn read_sheet(
    bytes: &[u8],
    kinds: &mut [u8],
    xs: &mut [u16],
    ys: &mut [u16],
    roots: &mut [u16],
) -> Result<Room, Refusal>
    ensures { let w = read_into ours bytes.now kinds.old xs.old ys.old roots.old in
        (result ≡ reply_of w)
        × ((kinds.new ≡ laid (kinds_of (rows_of w)) kinds.old)
        × ((xs.new ≡ laid (xs_of (rows_of w)) xs.old)
        × ((ys.new ≡ laid (ys_of (rows_of w)) ys.old)
        × (roots.new ≡ laid (roots_of w) roots.old)))) }
{
    let places = Room {
        rows: numbers::least(kinds.len(), numbers::least(xs.len(), ys.len())),
        roots: roots.len(),
    };
    let held = hold_sheet(bytes, places)?;
    table::store_rows(held.kept.rows, &held.rows, kinds, xs, ys);
    table::store(held.kept.roots, &held.roots, roots);
    Ok(held.kept)
}
