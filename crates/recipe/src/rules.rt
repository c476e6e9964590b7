// The rules of a table, one function each: it passes the table on, or refuses the lowest place that breaks its rule.
ghost use Rattle.std.specs.Prelude.{◌≡◌, ◌∷◌, []};
ghost use Rattle.numbers.specs.Sizes.{ours};
ghost use Rattle.recipe.specs.Tables.{kind_of, lists_of};
ghost use Rattle.recipe.specs.Rules.{operands_right, sizes_rule, kind_rule, operand_rule, root_rule, once_rule, used_rule, further_rules, judged_by};
ghost use Rattle.recipe.specs.Inner.{Kept, Sized};

use crate::{Kind, Table, usage};
use labels::Label;
use numbers::{ProcNumber, Refusal, RowNumber};

// There are from 1 to the ceiling rows and procedures, and both operands to each row. The writer's rule is another: it lets in a table of none.
#[tactic(auto, unfolding(crate::specs::Rules::sizes_right, crate::specs::Rules::judged_by, numbers::specs::General::lowest))]
pub(crate) fn sizes(table: &Table<'_>) -> Result<(), Refusal>
    ensures { result ≡ judged_by (sizes_rule ours (lists_of table.now) ∷ []) }
{
    let rows = table.kinds.len();
    let rows_fit = (1..=RowNumber::CEILING).contains(&rows);
    let procs_fit = (1..=ProcNumber::CEILING).contains(&table.roots.len());
    if rows_fit && procs_fit && table.xs.len() == rows && table.ys.len() == rows {
        Ok(())
    } else {
        Err(Refusal::Sizes)
    }
}

// Whether the operands of a row are as its kind wants them. Each kind has its own rule.
// Document 01 names this form: seven numbers, and a range that refuses the rest.
#[tactic(auto, unfolding(crate::specs::Rules::operands_right))]
fn operands_right(kind: u8, x: u16, y: u16, row: RowNumber, procs: usize) -> bool
    ensures { result ≡ operands_right ours (kind_of kind) x y row.0 procs }
{
    match kind {
        0 => x == 0 && y == 0,
        1 => (x as usize) < Label::CEILING && y == 0,
        2 => x < row.0 && y < row.0,
        3 => x < row.0 && y == 0,
        4 => x < row.0 && y == 0,
        5 => x < row.0 && y == 0,
        6 => (x as usize) < procs && y == 0,
        7..=255 => false,
    }
}

// A table of right sizes, with the rules that are tried once the sizes are right.
#[derive(Clone, Copy)]
pub(crate) struct SizedTable<'a> {
    pub(crate) table: Table<'a>,
    ghost sized: { Sized (lists_of table) },
}

impl SizedTable<'_> {
    // What is tried once the sizes are right, in this order.
    #[tactic(auto, using(crate::proofs::Judging::in_order))]
    pub(crate) fn further(&self) -> Result<(), Refusal>
        ensures { result ≡ judged_by (further_rules ours (lists_of self.now.table)) }
    {
        self.kinds()?;
        self.operands()?;
        self.roots()?;
        self.uses()
    }

    // Each kind is one of the seven. The writer tries its tables by this rule too: one for both would be public, and have to ask for few rows.
    fn kinds(&self) -> Result<(), Refusal>
        ensures { result ≡ judged_by (kind_rule (lists_of self.now.table) ∷ []) }
    {
        match numbers::first_above(self.table.kinds, Kind::LAST) {
            Some(i) => Err(Refusal::UnknownKind(RowNumber(i as u16))),
            None => Ok(()),
        }
    }

    // Each row has operands that suit its kind.
    fn operands(&self) -> Result<(), Refusal>
        ensures { result ≡ judged_by (operand_rule ours (lists_of self.now.table) ∷ []) }
    {
        let table = &self.table;
        for (i, &kind) in table.kinds.iter().enumerate() {
            let row = RowNumber(i as u16);
            if !operands_right(kind, table.xs[i], table.ys[i], row, table.roots.len()) {
                return Err(Refusal::WrongOperand(row));
            }
        }
        Ok(())
    }

    // Each root is a row.
    fn roots(&self) -> Result<(), Refusal>
        ensures { result ≡ judged_by (root_rule (lists_of self.now.table) ∷ []) }
    {
        let rows = self.table.kinds.len();
        for (f, &root) in self.table.roots.iter().enumerate() {
            if root as usize >= rows {
                return Err(Refusal::NoSuchRow(ProcNumber(f as u16)));
            }
        }
        Ok(())
    }

    // No row is used more than once, and then none is used by nobody.
    fn uses(&self) -> Result<(), Refusal>
        requires operands { Kept (operand_rule ours (lists_of self.now.table)) }
        requires roots { Kept (root_rule (lists_of self.now.table)) }
        ensures { let t = lists_of self.now.table in result ≡ judged_by (once_rule t ∷ used_rule t ∷ []) }
    {
        let mut counts = [0; RowNumber::CEILING];
        usage::count_children(&mut counts, self);
        usage::count_roots(&mut counts, &self.table);
        let counts = &counts[..self.table.kinds.len()];
        if let Some(again) = usage::first_with(counts, 2) {
            return Err(Refusal::UsedAgain(again));
        }
        if let Some(unused) = usage::first_with(counts, 0) {
            return Err(Refusal::Unused(unused));
        }
        Ok(())
    }
}
