// How often each row is used: one counter a row, which stops at two.
ghost use Rattle.std.specs.Prelude.{ℕ, ◌<◌, ◌≤◌, ◌≡◌, eqb, length, get_or, MatchOption};
ghost use Rattle.numbers.specs.General.{one_if, First, Nowhere};
ghost use Rattle.numbers.specs.Sizes.{row_ceiling};
ghost use Rattle.recipe.specs.Tables.{kind_of, lists_of, rows, procs};
ghost use Rattle.recipe.specs.Rules.{uses_by, child_uses, root_uses};
ghost use Rattle.recipe.specs.Inner.{Counts, Counted, ChildrenBelow};

use crate::rules::SizedTable;
use crate::{Kind, Table};
use numbers::RowNumber;

// Counts one use of a row.
fn count(counts: &mut [u8; RowNumber::CEILING], row: RowNumber)
    requires { row.0 < row_ceiling }
    ensures { Counted counts.old counts.new (λ i. one_if (eqb row.0 i)) }
{
    let at = row.0 as usize;
    if counts[at] < 2 {
        counts[at] += 1;
    }
}

// Counts the children of one row, whose fields come apart, as the columns have them. The kinds that count alike share an arm: the fewer places a
// row's kind leads to, the fewer are guessed wrong.
#[tactic(auto, unfolding(crate::specs::Rules::uses_by))]
fn count_row(counts: &mut [u8; RowNumber::CEILING], kind: u8, x: u16, y: u16)
    requires { (i : ℕ) → 0 < uses_by (kind_of kind) x y i → i < row_ceiling }
    ensures { Counted counts.old counts.new (uses_by (kind_of kind) x y) }
{
    let Ok(kind) = Kind::try_from(kind) else {
        return;
    };
    match kind {
        Kind::Seq => {
            count(counts, RowNumber(x));
            count(counts, RowNumber(y));
        }
        Kind::Loop | Kind::Async | Kind::Finish => count(counts, RowNumber(x)),
        Kind::Skip | Kind::Step | Kind::Call => {}
    }
}

// Counts the children of every row, from counters at 0.
pub(crate) fn count_children(counts: &mut [u8; RowNumber::CEILING], sized: &SizedTable<'_>)
    requires below { ChildrenBelow row_ceiling (lists_of sized.now.table) }
    requires none { Counts counts.old (λ i. 0) }
    ensures { let t = lists_of sized.now.table in Counts counts.new (child_uses t (rows t)) }
{
    let table = &sized.table;
    for (i, &kind) in table.kinds.iter().enumerate() {
        count_row(counts, kind, table.xs[i], table.ys[i]);
    }
}

// Counts the roots besides.
pub(crate) fn count_roots(counts: &mut [u8; RowNumber::CEILING], table: &Table<'_>)
    requires { (f : ℕ) → f < length table.now.roots.now → get_or table.now.roots.now f 0 < row_ceiling }
    ensures { let t = lists_of table.now in Counted counts.old counts.new (root_uses t (procs t)) }
{
    for &root in table.roots {
        count(counts, RowNumber(root));
    }
}

// The lowest row whose counter stands at `wanted`.
pub(crate) fn first_with(counts: &[u8], wanted: u8) -> Option<RowNumber>
    requires { length counts.now ≤ row_ceiling }
    ensures { let test = λ (i : ℕ). eqb (get_or counts.now i 0) wanted in
        MatchOption result (Nowhere (length counts.now) test) (λ row. First (length counts.now) test row.0) }
{
    let at = counts.iter().position(|count| *count == wanted)?;
    Some(RowNumber(at as u16))
}
