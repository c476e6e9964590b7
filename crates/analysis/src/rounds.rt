// The rounds: every body is worked out from the summaries of the round before, until a round repeats.
ghost use Rattle.std.specs.Prelude.{◌≡◌, ℕ, ◌<◌, ◌≤◌, length};
ghost use Rattle.numbers.specs.General.{laid};
ghost use Rattle.numbers.specs.Sizes.{ours, matrix_words};
ghost use Rattle.recipe.specs.Tables.{lists_of, rows, procs};
ghost use Rattle.recipe.specs.Statements.{program_of};
ghost use Rattle.analysis.specs.Replies.{rounds, main_pairs};
ghost use Rattle.analysis.specs.Inner.{words_in, held_for, row_words, body_words};

use crate::rows::row_summary;
use crate::state;
use crate::state::State;
use crate::summary::Summary;
use crate::turn::Turn;
use numbers::RowNumber;
use recipe::Recipe;

// Works out the summary of a body.
fn body_summary(new: &mut Summary, turn: &Turn<'_>, root: RowNumber)
    requires { root.0 < rows (lists_of turn.now.recipe.table) }
    ensures { let t = lists_of turn.now.recipe.table in
        words_in new.new ≡ row_words ours.words t turn.now.held.now root.0 }
{
    matrix::clear(&mut new.pairs);
    new.labels = row_summary(&mut new.pairs, turn, root);
}

// A round: every body, called or not.
fn round(new: &mut State, turn: &Turn<'_>)
    ensures bodies { let t = lists_of turn.now.recipe.table in
        (f : ℕ) → f < procs t → held_for new.new f ≡ body_words ours.words (program_of t) turn.now.held.now f }
    ensures others { let t = lists_of turn.now.recipe.table in
        (f : ℕ) → procs t ≤ f → held_for new.new f ≡ held_for new.old f }
{
    let table = &turn.recipe.table;
    for (f, &root) in table.roots.iter().enumerate() {
        body_summary(&mut new[f], turn, RowNumber(root));
    }
}

// Rounds from empty summaries until one repeats. Main's pairs are then put into the lent matrix, and the count of rounds is handed back.
// Never inlined: in its caller's frame the two states would take stack while the judge runs.
#[inline(never)]
pub(crate) fn run(recipe: &Recipe<'_>, matrix: &mut [u64]) -> u32
    requires { matrix_words ours.words ≤ length matrix.old }
    ensures count { result ≡ rounds ours.words (program_of (lists_of recipe.now.table)) }
    ensures pairs { matrix.new ≡ laid (main_pairs ours.words (program_of (lists_of recipe.now.table))) matrix.old }
{
    let n = recipe.table.roots.len();
    let mut held = state::empty();
    let mut new = held;
    let mut rounds: u32 = 0;
    // A loop and no `for`: how often it runs is what it finds out, and a range would need a reply past its end, which never comes.
    loop {
        let turn = Turn {
            recipe: *recipe,
            held: &held,
        };
        round(&mut new, &turn);
        if new[..n] == held[..n] {
            break;
        }
        held = new;
        rounds += 1;
    }
    matrix::copy(matrix, &held[0].pairs);
    rounds
}
