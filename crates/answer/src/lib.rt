// The answer to a sheet, laid at the front of lent bytes: the listing of its recipe, or the line of the refusal.
#![tactic(auto)]

ghost use Rattle.std.specs.Prelude.{◌≡◌, ◌≤◌, length};
ghost use Rattle.numbers.specs.Sizes.{ours};
ghost use Rattle.recipe.specs.Statements.{program_of};
ghost use Rattle.recipe.specs.Tables.{lists_of};
ghost use Rattle.text.specs.Inner.{Put};
ghost use Rattle.listing.specs.Replies.{listing_of};
ghost use Rattle.answer.specs.Answer.{refusal_line, answer_to_table, answer_to, Answered};

use numbers::{MATRIX_WORDS, ProcNumber, Refusal, RowNumber};
use recipe::{Recipe, Table};

// No refusal's line has more bytes: `refused`, two tabs and the newline are ten, and a number of 32 bits has ten digits at most.
const LONGEST_LINE: usize = 30;

// Puts a refusal's line at the front of the bytes.
fn put_refusal(bytes: &mut [u8], refusal: Refusal) -> usize
    ensures line { Put bytes.old 0 (refusal_line refusal) bytes.new result }
    ensures short { length (refusal_line refusal) ≤ 30 }
{
    let number = refusal.number() as usize;
    let place = refusal.place() as usize;
    let at = text::put_text(bytes, 0, b"refused", b'\t');
    let at = text::put_number(bytes, at, number, b'\t');
    text::put_number(bytes, at, place, b'\n')
}

// Answers with a refusal's line.
#[tactic(auto, using(listing::proofs::ReplyLaws::too_long_lem))]
fn refuse(bytes: &mut [u8], refusal: Refusal) -> Result<usize, Refusal>
    ensures { Answered (refusal_line refusal) bytes.old result bytes.new }
{
    let mut line = [0; LONGEST_LINE];
    let needed = put_refusal(&mut line, refusal);
    if bytes.len() < needed {
        return Err(Refusal::ShortBytes);
    }
    bytes[..needed].copy_from_slice(&line[..needed]);
    Ok(needed)
}

// Answers with the listing of an admitted table.
#[tactic(auto, unfolding(listing::specs::Replies::listed, listing::specs::Replies::bytes_listed), using(recipe::proofs::WithMatrix::admitted_still))]
fn list(bytes: &mut [u8], recipe: &Recipe<'_>) -> Result<usize, Refusal>
    ensures { Answered (listing_of ours (program_of (lists_of recipe.now.table))) bytes.old result bytes.new }
{
    let mut matrix = [0u64; MATRIX_WORDS];
    listing::list_pairs(&recipe.table, &mut matrix, bytes)
}

// Answers a table: the judge decides whether it is listed.
fn answer_table(bytes: &mut [u8], table: &Table<'_>) -> Result<usize, Refusal>
    ensures { Answered (answer_to_table ours (lists_of table.now)) bytes.old result bytes.new }
{
    match table.judge() {
        Ok(()) => list(bytes, &Recipe { table: *table }),
        Err(refusal) => refuse(bytes, refusal),
    }
}

// Lays the text that answers a sheet at the front of the lent bytes, and hands back its length. Where it does not fit, nothing is
// written.
#[tactic(auto, unfolding(crate::specs::Answer::answer_to))]
pub fn answer(sheet: &[u8], bytes: &mut [u8]) -> Result<usize, Refusal>
    ensures { Answered (answer_to ours sheet.now) bytes.old result bytes.new }
{
    // Fixed memory with room for every table.
    let mut kinds = [0u8; RowNumber::CEILING];
    let mut xs = [0u16; RowNumber::CEILING];
    let mut ys = [0u16; RowNumber::CEILING];
    let mut roots = [0u16; ProcNumber::CEILING];
    match sheet::read_sheet(sheet, &mut kinds, &mut xs, &mut ys, &mut roots) {
        Ok(read) => {
            let table = Table {
                kinds: &kinds[..read.rows],
                xs: &xs[..read.rows],
                ys: &ys[..read.rows],
                roots: &roots[..read.roots],
            };
            answer_table(bytes, &table)
        }
        Err(refusal) => refuse(bytes, refusal),
    }
}
