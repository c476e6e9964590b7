// The analysis, the listing and the reader on a lent slice of row records. C has each entry on slices and on records; these are thin over those on
// slices, and rows and roots come one by one, as C lends them.
#![tactic(auto)]

ghost use Rattle.std.specs.Prelude.{◌≡◌, length};
ghost use Rattle.numbers.specs.General.{laid};
ghost use Rattle.numbers.specs.Sizes.{ours};
ghost use Rattle.recipe.specs.Records.{table_of_rows};
ghost use Rattle.analysis.specs.Replies.{analysed, matrix_after};
ghost use Rattle.listing.specs.Replies.{listed, matrix_listed, bytes_listed};
ghost use Rattle.table.specs.Reading.{rows_of, roots_of, reply_of};
ghost use Rattle.records.specs.Records.{read_records};

use numbers::Refusal;
use recipe::Row;
use table::{Columns, Room};

// Marks in the lent matrix every two labels that may run at the same time in main, and hands back the rounds: the analysis of the
// table whose rows are these records. A recipe that is not admitted is refused, and then the matrix is left as it was.
#[tactic(auto, using(crate::proofs::TooMany::analysing_too_many))]
pub fn analyse_rows(rows: &[Row], roots: &[u16], matrix: &mut [u64]) -> Result<u32, Refusal>
    ensures { let t = table_of_rows rows.now roots.now in
        (result ≡ analysed ours t (length matrix.old)) × (matrix.new ≡ matrix_after ours t matrix.old) }
{
    analysis::analyse(&Columns::of(rows)?.table(roots), matrix)
}

// Writes the listing of the recipe whose rows are these records to the front of the lent bytes, marks its pairs in the lent matrix, and
// hands back the listing's length. What is refused, a listing that does not fit among it, leaves the bytes and the matrix as they were.
#[tactic(auto, using(crate::proofs::TooMany::listing_too_many))]
pub fn list_rows(
    rows: &[Row],
    roots: &[u16],
    matrix: &mut [u64],
    bytes: &mut [u8],
) -> Result<usize, Refusal>
    ensures { let t = table_of_rows rows.now roots.now in
        (result ≡ listed ours t (length matrix.old) (length bytes.old))
        × (matrix.new ≡ matrix_listed ours t matrix.old (length bytes.old))
        × (bytes.new ≡ bytes_listed ours t (length matrix.old) bytes.old) }
{
    listing::list_pairs(&Columns::of(rows)?.table(roots), matrix, bytes)
}

// Reads a sheet into lent records, row by row, and its roots into the lent slice, and hands back how many were stored. After a refusal
// both are as before.
pub fn read_rows(bytes: &[u8], rows: &mut [Row], roots: &mut [u16]) -> Result<Room, Refusal>
    ensures { let w = read_records ours bytes.now rows.old roots.old in
        (result ≡ reply_of w)
        × (rows.new ≡ laid (rows_of w) rows.old)
        × (roots.new ≡ laid (roots_of w) roots.old) }
{
    let places = Room {
        rows: rows.len(),
        roots: roots.len(),
    };
    let held = sheet::hold_sheet(bytes, places)?;
    table::store(held.kept.rows, &held.rows, rows);
    table::store(held.kept.roots, &held.roots, roots);
    Ok(held.kept)
}
