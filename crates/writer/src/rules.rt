// The rules of a table that is to be written, one function each: it passes the table on, or refuses the lowest place that breaks its rule.
ghost use Rattle.std.specs.Prelude.{◌≡◌, ◌||◌, [], ◌∷◌, position, length};
ghost use Rattle.std.specs.List.{zip};
ghost use Rattle.numbers.specs.Sizes.{ours};
ghost use Rattle.recipe.specs.Rules.{kind_rule, judged_by};
ghost use Rattle.recipe.specs.Tables.{lists_of, rows, procs};
ghost use Rattle.writer.specs.Inner.{WritableSizes};
ghost use Rattle.writer.specs.Rules.{sizes_writable, too_long, sizes_rule, operand_rule, root_rule, table_rules};

use numbers::{ProcNumber, Refusal, RowNumber, first_above};
use recipe::{Kind, Table};

// The greatest number that a field of a sheet can hold.
const LONGEST_NUMBER: u16 = 9999;

// Judges a table that is to be written, without regard to the room for its sheet.
#[tactic(auto, using(recipe::proofs::Judging::refused_before, recipe::proofs::Judging::kept_before, crate::proofs::Judging::sizes_kept))]
pub(crate) fn judge(table: &Table<'_>) -> Result<(), Refusal>
    ensures { result ≡ judged_by (table_rules ours (lists_of table.now)) }
{
    sizes(table)?;
    let sized = SizedTable { table: *table };
    sized.kinds()?;
    sized.operands()?;
    sized.roots()
}

// There are no more rows and procedures than the ceilings, and both operands to each row. The judge's rule is another: it wants one of each.
#[tactic(auto, unfolding(crate::specs::Rules::sizes_writable, recipe::specs::Rules::judged_by, numbers::specs::General::lowest))]
fn sizes(table: &Table<'_>) -> Result<(), Refusal>
    ensures { result ≡ judged_by (sizes_rule ours (lists_of table.now) ∷ []) }
{
    let rows = table.kinds.len();
    let few = rows <= RowNumber::CEILING && table.roots.len() <= ProcNumber::CEILING;
    if few && table.xs.len() == rows && table.ys.len() == rows {
        Ok(())
    } else {
        Err(Refusal::Sizes)
    }
}

// A table whose sizes can be written.
#[derive(Clone, Copy)]
struct SizedTable<'a> {
    table: Table<'a>,
    ghost sized: { let t = lists_of table in WritableSizes ours (rows t) (length t.xs) (length t.ys) (procs t) },
}

impl SizedTable<'_> {
    // Each kind is one of the seven. The judge of recipes has the same rule, and why there are two stands there.
    fn kinds(&self) -> Result<(), Refusal>
        ensures { result ≡ judged_by (kind_rule (lists_of self.now.table) ∷ []) }
    {
        match first_above(self.table.kinds, Kind::LAST) {
            Some(i) => Err(Refusal::UnknownKind(RowNumber(i as u16))),
            None => Ok(()),
        }
    }

    // The lowest row with an operand that no field holds, where there is one.
    fn long_operand(&self) -> Option<usize>
        ensures { let t = lists_of self.now.table in
            result ≡ position (λ operands. too_long operands.0 || too_long operands.1) (zip t.xs t.ys) }
    {
        self.table
            .xs
            .iter()
            .zip(self.table.ys)
            .position(|(x, y)| *x > LONGEST_NUMBER || *y > LONGEST_NUMBER)
    }

    // Each operand has a field that holds it, whether its kind uses it or not.
    fn operands(&self) -> Result<(), Refusal>
        ensures { result ≡ judged_by (operand_rule (lists_of self.now.table) ∷ []) }
    {
        match self.long_operand() {
            Some(i) => Err(Refusal::LongOperand(RowNumber(i as u16))),
            None => Ok(()),
        }
    }

    // Each root has a field that holds it.
    fn roots(&self) -> Result<(), Refusal>
        ensures { result ≡ judged_by (root_rule (lists_of self.now.table) ∷ []) }
    {
        match first_above(self.table.roots, LONGEST_NUMBER) {
            Some(f) => Err(Refusal::LongRoot(ProcNumber(f as u16))),
            None => Ok(()),
        }
    }
}
