// A table's rows as columns.
ghost use Rattle.std.specs.Prelude.{◌≡◌, ◌≤◌};
ghost use Rattle.numbers.specs.Sizes.{row_ceiling};

use crate::store_rows;
use numbers::{Refusal, RowNumber, least};
use recipe::{Row, Table};

// The columns of a table's rows, each in an array of its own, as many entries as there are rows. Three arrays, since a table lends three slices.
#[derive(Clone, Copy)]
pub struct Columns {
    rows: usize,
    pub kinds: [u8; RowNumber::CEILING],
    pub xs: [u16; RowNumber::CEILING],
    pub ys: [u16; RowNumber::CEILING],
    ghost fits: { rows ≤ row_ceiling },
}

impl Columns {
    ghost use Rattle.table.specs.Columns.{Copied, columns_of, columns_table};
    ghost use Rattle.recipe.specs.Tables.{lists_of};

    // The columns of the lent rows. More of them than a table can have are refused.
    pub fn of(rows: &[Row]) -> Result<Columns, Refusal>
        ensures { Copied rows.now result }
    {
        if RowNumber::CEILING < rows.len() {
            return Err(Refusal::Sizes);
        }
        Ok(Columns::first_of(rows))
    }

    // The columns of the first rows, as many as a table can have.
    pub fn first_of(rows: &[Row]) -> Columns
        ensures { result ≡ columns_of rows.now }
    {
        let n = least(RowNumber::CEILING, rows.len());
        let mut kinds = [0; RowNumber::CEILING];
        let mut xs = [0; RowNumber::CEILING];
        let mut ys = [0; RowNumber::CEILING];
        store_rows(n, rows, &mut kinds, &mut xs, &mut ys);
        Columns {
            rows: n,
            kinds,
            xs,
            ys,
        }
    }

    // The table of these columns and the lent roots.
    pub fn table<'a>(&'a self, roots: &'a [u16]) -> Table<'a>
        ensures { lists_of result ≡ columns_table self.now roots.now }
    {
        let n = self.rows;
        Table {
            kinds: &self.kinds[..n],
            xs: &self.xs[..n],
            ys: &self.ys[..n],
            roots,
        }
    }
}
