// A row's summary, worked out from its child rows, whose numbers are smaller. Pairs are marked in a lent matrix.
ghost use Rattle.std.specs.Prelude.{◌≡◌, ◌<◌};
ghost use Rattle.numbers.specs.Sizes.{ours};
ghost use Rattle.recipe.specs.Tables.{lists_of, rows};
ghost use Rattle.analysis.specs.Summaries.{followed_words, looped_words};
ghost use Rattle.analysis.specs.Inner.{summary_words, marked_into, held_for, row_words};

use crate::state::State;
use crate::summary::{LabelSummary, Pairs};
use crate::turn::Turn;
use labels::Label;
use numbers::{ProcNumber, RowNumber};
use recipe::Kind;

// Two statements one after the other, where the pairs of both are marked: what the first leaves running meets what the second runs.
fn sequence(pairs: &mut Pairs, first: LabelSummary, second: LabelSummary) -> LabelSummary
    ensures { let m = pairs.old in
        summary_words result pairs.new ≡ followed_words ours.words (summary_words first m) (summary_words second m) }
{
    matrix::cross(pairs, first.o, second.l);
    first.joined_with(second)
}

// A loop, where the pairs of its body are marked: what a turn leaves running meets what a turn runs.
fn repetition(pairs: &mut Pairs, body: LabelSummary) -> LabelSummary
    ensures { summary_words result pairs.new ≡ looped_words ours.words (summary_words body pairs.old) }
{
    matrix::cross(pairs, body.o, body.l);
    body.looped()
}

// A call: the summary held for the procedure.
fn called(pairs: &mut Pairs, held: &State, callee: ProcNumber) -> LabelSummary
    requires { callee.0 < ours.procs }
    ensures { let x = held_for held.now callee.0 in
        summary_words result pairs.new ≡ marked_into ours.words pairs.old x }
{
    let summary = &held[callee.0 as usize];
    matrix::merge(pairs, &summary.pairs);
    summary.labels
}

// The summary of the statement of a row, its pairs marked besides. That the row is there is the bound of an index.
// The three kinds with one child share an arm: the fewer places a row's kind leads to, the fewer are guessed wrong.
pub(crate) fn row_summary(pairs: &mut Pairs, turn: &Turn<'_>, row: RowNumber) -> LabelSummary
    requires { row.0 < rows (lists_of turn.now.recipe.table) }
    ensures { let t = lists_of turn.now.recipe.table in
        let x = row_words ours.words t turn.now.held.now row.0 in
        summary_words result pairs.new ≡ marked_into ours.words pairs.old x }
{
    let i = row.0 as usize;
    let table = &turn.recipe.table;
    let x = table.xs[i];
    let Ok(kind) = Kind::try_from(table.kinds[i]) else {
        return LabelSummary::empty();
    };
    match kind {
        Kind::Skip => LabelSummary::empty(),
        Kind::Step => LabelSummary::step(Label(x as u8)),
        Kind::Seq => {
            let first = row_summary(pairs, turn, RowNumber(x));
            let second = row_summary(pairs, turn, RowNumber(table.ys[i]));
            sequence(pairs, first, second)
        }
        Kind::Loop | Kind::Async | Kind::Finish => {
            let body = row_summary(pairs, turn, RowNumber(x));
            match kind {
                Kind::Loop => repetition(pairs, body),
                Kind::Async => body.spawned(),
                _ => body.waited(),
            }
        }
        Kind::Call => called(pairs, turn.held, ProcNumber(x)),
    }
}
