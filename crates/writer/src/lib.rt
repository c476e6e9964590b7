// The writer: a recipe's table as a sheet in lent bytes, from plain slices and from a lent slice of row records.
#![tactic(auto)]

ghost use Rattle.std.specs.Prelude.{◌≡◌, length};
ghost use Rattle.numbers.specs.Sizes.{ours};
ghost use Rattle.recipe.specs.Records.{table_of_rows};
ghost use Rattle.recipe.specs.Tables.{lists_of};
ghost use Rattle.writer.specs.Replies.{written, bytes_written};

use lines::Writable;
use numbers::Refusal;
use recipe::{Row, Table};
use table::Columns;
use text::{Count, Front};

mod lines;
mod rules;

// Writes the sheet of a table to the front of the lent bytes and hands back its length. What is refused, a sheet that does not fit among
// it, leaves the bytes as they were.
pub fn write_sheet(table: &Table<'_>, bytes: &mut [u8]) -> Result<usize, Refusal>
    ensures reply { result ≡ written ours (lists_of table.now) (length bytes.old) }
    ensures text { bytes.new ≡ bytes_written ours (lists_of table.now) bytes.old }
{
    // As a listing is: one function for both would need a trait of what is told, with a law of its own, for these eight lines.
    rules::judge(table)?;
    let sheet = Writable { table: *table };
    let mut count = Count(0);
    sheet.tell(&mut count);
    let needed = count.0;
    if bytes.len() < needed {
        return Err(Refusal::ShortBytes);
    }
    let mut front = Front { bytes, at: 0 };
    sheet.tell(&mut front);
    Ok(needed)
}

// Writes the sheet of the recipe whose rows are these records to the front of the lent bytes and hands back its length. What is refused,
// a sheet that does not fit among it, leaves the bytes as they were.
#[tactic(auto, using(crate::proofs::ReplyLaws::too_many_reply, crate::proofs::ReplyLaws::too_many_bytes))]
pub fn write_rows(rows: &[Row], roots: &[u16], bytes: &mut [u8]) -> Result<usize, Refusal>
    ensures { let t = table_of_rows rows.now roots.now in
        (result ≡ written ours t (length bytes.old)) × (bytes.new ≡ bytes_written ours t bytes.old) }
{
    let columns = Columns::of(rows)?;
    write_sheet(&columns.table(roots), bytes)
}
