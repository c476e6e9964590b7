// The analysis: which labels may run at the same time, worked out in rounds from an admitted recipe.
#![tactic(auto)]

ghost use Rattle.std.specs.Prelude.{◌≡◌, length};
ghost use Rattle.numbers.specs.Sizes.{ours};
ghost use Rattle.recipe.specs.Tables.{lists_of};
ghost use Rattle.analysis.specs.Replies.{analysed, matrix_after};

mod rounds;
mod rows;
mod state;
mod summary;
mod turn;

use numbers::Refusal;
use recipe::{Recipe, Table};

// Marks in the lent matrix every two labels that may run at the same time in main, and hands back the rounds until one repeats. A
// table that is not admitted is refused, and then the matrix is left as it was.
#[tactic(auto, unfolding(crate::specs::Replies::analysed, crate::specs::Replies::matrix_after), using(crate::proofs::ReplyLaws::as_judged))]
pub fn analyse(table: &Table<'_>, matrix: &mut [u64]) -> Result<u32, Refusal>
    ensures reply { result ≡ analysed ours (lists_of table.now) (length matrix.old) }
    ensures pairs { matrix.new ≡ matrix_after ours (lists_of table.now) matrix.old }
{
    table.judge_with(matrix.len())?;
    let recipe = Recipe { table: *table };
    Ok(rounds::run(&recipe, matrix))
}
