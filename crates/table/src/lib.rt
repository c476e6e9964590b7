// What keeps rows, for every reader: room and ceilings, rows and roots held in arrays, stored into lent slices or records, and a table's columns.
#![tactic(auto)]

mod columns;

ghost use Rattle.std.specs.Prelude.{◌≡◌, min};
ghost use Rattle.numbers.specs.Sizes.{ours, row_ceiling};
ghost use Rattle.recipe.specs.Records.{kinds_of, xs_of, ys_of};
ghost use Rattle.table.specs.Reading.{row_places};
ghost use Rattle.table.specs.Inner.{overlaid, empty};

pub use columns::Columns;
use numbers::{ProcNumber, Refusal, RowNumber, least};
use recipe::Row;

// How many rows and how many roots: room for them, or so many that are kept.
#[derive(Clone, Copy)]
pub struct Room {
    pub rows: usize,
    pub roots: usize,
}

impl Room {
    // The room that the ceilings leave of it.
    pub fn within_ceilings(self) -> Room
        ensures { (result.rows ≡ min row_ceiling self.rows) × (result.roots ≡ min ours.procs self.roots) }
    {
        Room {
            rows: least(RowNumber::CEILING, self.rows),
            roots: least(ProcNumber::CEILING, self.roots),
        }
    }
}

// What is held of a sheet that was read: at the front of the arrays its rows and its roots, as many as are kept.
#[derive(Clone, Copy)]
pub struct Held {
    pub rows: [Row; RowNumber::CEILING],
    pub roots: [u16; ProcNumber::CEILING],
    pub kept: Room,
}

impl Held {
    // Nothing is held, and all places have zeros.
    pub fn empty() -> Held
        ensures { result ≡ empty }
    {
        Held {
            rows: [Row {
                kind: 0,
                x: 0,
                y: 0,
            }; RowNumber::CEILING],
            roots: [0; ProcNumber::CEILING],
            kept: Room { rows: 0, roots: 0 },
        }
    }
}

// Stores the first n of these elements into the lent slice, from its start, as far as both go. What stands after them stays.
pub fn store<T: Copy>(n: usize, kept: &[T], lent: &mut [T])
    ensures { lent.new ≡ overlaid n kept.now lent.old }
{
    let m = least(least(n, kept.len()), lent.len());
    lent[..m].copy_from_slice(&kept[..m]);
}

// Stores the first n rows, each field into its slice, as far as all of them go. The slices come one by one, as C lends
// them, and go field by field, since a record's fields lie side by side.
pub fn store_rows(n: usize, rows: &[Row], kinds: &mut [u8], xs: &mut [u16], ys: &mut [u16])
    ensures { let m = min n (row_places kinds.old xs.old ys.old) in
        (kinds.new ≡ overlaid m (kinds_of rows.now) kinds.old)
        × (xs.new ≡ overlaid m (xs_of rows.now) xs.old)
        × (ys.new ≡ overlaid m (ys_of rows.now) ys.old) }
{
    let places = least(kinds.len(), least(xs.len(), ys.len()));
    let m = least(least(n, places), rows.len());
    for (i, row) in rows[..m].iter().enumerate() {
        kinds[i] = row.kind;
        xs[i] = row.x;
        ys[i] = row.y;
    }
}
