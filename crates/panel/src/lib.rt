// The way in from C: each entry on plain slices and on a slice of row records. A reply is one number (panel.h). `panel_c` exports the entries:
// a crate is a library, on which theorems stand, or a static library.
#![tactic(auto)]

ghost use Rattle.std.specs.Prelude.{◌≡◌, length};
ghost use Rattle.numbers.specs.General.{laid};
ghost use Rattle.numbers.specs.Sizes.{ours};
ghost use Rattle.recipe.specs.Tables.{table_of};
ghost use Rattle.recipe.specs.Records.{kinds_of, xs_of, ys_of, table_of_rows};
ghost use Rattle.analysis.specs.Replies.{analysed, matrix_after};
ghost use Rattle.listing.specs.Replies.{listed, matrix_listed, bytes_listed};
ghost use Rattle.table.specs.Reading.{rows_of, roots_of, reply_of};
ghost use Rattle.sheet.specs.Reading.{read_into};
ghost use Rattle.records.specs.Records.{read_records};
ghost use Rattle.writer.specs.Replies.{written, bytes_written};
ghost use Rattle.panel.specs.Codes.{refusal_code, reply_code, read_code};
ghost use Rattle.panel.specs.Inner.{WithinCeilings};

use numbers::Refusal;
use recipe::{Row, Table};
use table::Room;

// A refusal's number counts in units of 2^32, and so stands above every place, count and length.
const NUMBER_UNIT: u64 = 4294967296;

// The number of procedures counts in units of 65,536, and so stands above the number of rows.
const PROCS_UNIT: u64 = 65536;

// A refusal as one number.
fn refusal_code(r: Refusal) -> u64
    ensures { result ≡ refusal_code r }
{
    (r.number() as u64) * NUMBER_UNIT + (r.place() as u64)
}

// A reply whose success is a number, as one number.
fn reply_code(reply: Result<u64, Refusal>) -> u64
    ensures { result ≡ reply_code reply }
{
    reply.unwrap_or_else(refusal_code)
}

// A reply of the reader as one number.
fn read_code(reply: Result<Room, Refusal>) -> u64
    requires { WithinCeilings reply }
    ensures { result ≡ read_code reply }
{
    match reply {
        Ok(kept) => (kept.rows as u64) + PROCS_UNIT * (kept.roots as u64),
        Err(why) => refusal_code(why),
    }
}

// The analysis, for a caller in C.
pub fn bushkalote_analyse(
    kinds: &[u8],
    xs: &[u16],
    ys: &[u16],
    roots: &[u16],
    matrix: &mut [u64],
) -> u64
    ensures reply { let t = table_of kinds.now xs.now ys.now roots.now in
        result ≡ reply_code (analysed ours t (length matrix.old)) }
    ensures pairs { let t = table_of kinds.now xs.now ys.now roots.now in
        matrix.new ≡ matrix_after ours t matrix.old }
{
    let table = Table {
        kinds,
        xs,
        ys,
        roots,
    };
    reply_code(analysis::analyse(&table, matrix).map(u64::from))
}

// The reader, for a caller in C.
pub fn bushkalote_read_sheet(
    bytes: &[u8],
    kinds: &mut [u8],
    xs: &mut [u16],
    ys: &mut [u16],
    roots: &mut [u16],
) -> u64
    ensures { let w = read_into ours bytes.now kinds.old xs.old ys.old roots.old in
        (result ≡ read_code (reply_of w))
        × ((kinds.new ≡ laid (kinds_of (rows_of w)) kinds.old)
        × ((xs.new ≡ laid (xs_of (rows_of w)) xs.old)
        × ((ys.new ≡ laid (ys_of (rows_of w)) ys.old)
        × (roots.new ≡ laid (roots_of w) roots.old)))) }
{
    read_code(sheet::read_sheet(bytes, kinds, xs, ys, roots))
}

// The listing, for a caller in C.
pub fn bushkalote_list_pairs(
    kinds: &[u8],
    xs: &[u16],
    ys: &[u16],
    roots: &[u16],
    matrix: &mut [u64],
    bytes: &mut [u8],
) -> u64
    ensures reply { let t = table_of kinds.now xs.now ys.now roots.now in
        result ≡ reply_code (listed ours t (length matrix.old) (length bytes.old)) }
    ensures pairs { let t = table_of kinds.now xs.now ys.now roots.now in
        matrix.new ≡ matrix_listed ours t matrix.old (length bytes.old) }
    ensures text { let t = table_of kinds.now xs.now ys.now roots.now in
        bytes.new ≡ bytes_listed ours t (length matrix.old) bytes.old }
{
    let table = Table {
        kinds,
        xs,
        ys,
        roots,
    };
    reply_code(listing::list_pairs(&table, matrix, bytes).map(|n| n as u64))
}

// The writer, for a caller in C.
pub fn bushkalote_write_sheet(
    kinds: &[u8],
    xs: &[u16],
    ys: &[u16],
    roots: &[u16],
    bytes: &mut [u8],
) -> u64
    ensures reply { let t = table_of kinds.now xs.now ys.now roots.now in
        result ≡ reply_code (written ours t (length bytes.old)) }
    ensures text { let t = table_of kinds.now xs.now ys.now roots.now in
        bytes.new ≡ bytes_written ours t bytes.old }
{
    let table = Table {
        kinds,
        xs,
        ys,
        roots,
    };
    reply_code(writer::write_sheet(&table, bytes).map(|n| n as u64))
}

// The analysis on row records, for a caller in C.
pub fn bushkalote_analyse_rows(rows: &[Row], roots: &[u16], matrix: &mut [u64]) -> u64
    ensures { let t = table_of_rows rows.now roots.now in
        (result ≡ reply_code (analysed ours t (length matrix.old)))
        × (matrix.new ≡ matrix_after ours t matrix.old) }
{
    reply_code(records::analyse_rows(rows, roots, matrix).map(u64::from))
}

// The reader into row records, for a caller in C.
pub fn bushkalote_read_rows(bytes: &[u8], rows: &mut [Row], roots: &mut [u16]) -> u64
    ensures { let w = read_records ours bytes.now rows.old roots.old in
        (result ≡ read_code (reply_of w))
        × (rows.new ≡ laid (rows_of w) rows.old)
        × (roots.new ≡ laid (roots_of w) roots.old) }
{
    read_code(records::read_rows(bytes, rows, roots))
}

// The listing on row records, for a caller in C.
pub fn bushkalote_list_rows(
    rows: &[Row],
    roots: &[u16],
    matrix: &mut [u64],
    bytes: &mut [u8],
) -> u64
    ensures { let t = table_of_rows rows.now roots.now in
        (result ≡ reply_code (listed ours t (length matrix.old) (length bytes.old)))
        × (matrix.new ≡ matrix_listed ours t matrix.old (length bytes.old))
        × (bytes.new ≡ bytes_listed ours t (length matrix.old) bytes.old) }
{
    reply_code(records::list_rows(rows, roots, matrix, bytes).map(|n| n as u64))
}

// The writer from row records, for a caller in C.
pub fn bushkalote_write_rows(rows: &[Row], roots: &[u16], bytes: &mut [u8]) -> u64
    ensures { let t = table_of_rows rows.now roots.now in
        (result ≡ reply_code (written ours t (length bytes.old)))
        × (bytes.new ≡ bytes_written ours t bytes.old) }
{
    reply_code(writer::write_rows(rows, roots, bytes).map(|n| n as u64))
}
