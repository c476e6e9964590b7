// Calls: which procedures call and reach which, and the verdict on a recipe that follows from it.
#![tactic(auto)]

ghost use Rattle.std.specs.Prelude.{◌≡◌};
ghost use Rattle.numbers.specs.Sizes.{ours};
ghost use Rattle.recipe.specs.Tables.{lists_of};
ghost use Rattle.calls.specs.Verdicts.{verdict_on};

mod reach;

use numbers::Refusal;
use recipe::{Recipe, Table};

// Wide where some procedure that main can reach by calls, main included, can reach itself by calls, exact where none can.
#[derive(Clone, Copy)]
pub enum Verdict {
    Exact,
    Wide,
}

// The verdict on a table.
#[tactic(auto, using(crate::proofs::VerdictLaws::refused_verdict, crate::proofs::VerdictLaws::wide_verdict, crate::proofs::VerdictLaws::exact_verdict))]
pub fn verdict_on(table: &Table<'_>) -> Result<Verdict, Refusal>
    ensures { result ≡ verdict_on ours (lists_of table.now) }
{
    table.judge()?;
    let recipe = Recipe { table: *table };
    if reach::reaches_itself(&recipe) {
        Ok(Verdict::Wide)
    } else {
        Ok(Verdict::Exact)
    }
}
