// Which procedures reach which by calls: a set of procedures is one word, and there is one for each procedure of a recipe.
ghost use Rattle.std.specs.Prelude.{◌≡◌, ◌<◌, ◌≤◌};
ghost use Rattle.numbers.specs.Sizes.{ours};
ghost use Rattle.recipe.specs.Statements.{statement_at, program_of};
ghost use Rattle.recipe.specs.Tables.{lists_of, rows};
ghost use Rattle.calls.specs.Inner.{calls_of};
ghost use Rattle.calls.specs.Reached.{wide};

use labels::Member;
use numbers::{ProcNumber, RowNumber};
use recipe::{Kind, Recipe};

// The procedures that a row's statement calls. The bound on the row is that of an index; a type for it would carry the table along.
// Each kind has its arm: of one arm for three the proof would not know which kind it has.
fn row_calls(recipe: &Recipe<'_>, row: RowNumber) -> u64
    requires { row.0 < rows (lists_of recipe.now.table) }
    ensures { result ≡ calls_of (statement_at (lists_of recipe.now.table) row.0) }
{
    let i = row.0 as usize;
    let table = recipe.table;
    let x = table.xs[i];
    let y = table.ys[i];
    match Kind::try_from(table.kinds[i]) {
        Ok(Kind::Skip) => 0,
        Ok(Kind::Step) => 0,
        Ok(Kind::Seq) => row_calls(recipe, RowNumber(x)) | row_calls(recipe, RowNumber(y)),
        Ok(Kind::Loop) => row_calls(recipe, RowNumber(x)),
        Ok(Kind::Async) => row_calls(recipe, RowNumber(x)),
        Ok(Kind::Finish) => row_calls(recipe, RowNumber(x)),
        Ok(Kind::Call) => ProcNumber(x).alone(),
        Err(_) => 0,
    }
}

// How many procedures a recipe has. It is a type apart from the sets, since these change and the bound on it does not.
#[derive(Clone, Copy)]
struct Procs {
    number: usize,
    ghost few: { number ≤ ours.procs },
}

// Which procedures each procedure reaches: a set for each of them, the first ones here.
#[derive(Clone, Copy)]
struct Reach {
    sets: [u64; ProcNumber::CEILING],
    procs: Procs,
}

impl Reach {
    ghost use Rattle.std.specs.Prelude.{replicate};
    ghost use Rattle.calls.specs.Inner.{direct_calls, through_also, closed_below, none_in_both};
    ghost use Rattle.recipe.specs.Tables.{procs};

    // Each procedure reaches those that its body calls.
    fn direct(recipe: &Recipe<'_>) -> Reach
        ensures { let t = lists_of recipe.now.table in
            (result.procs.number ≡ procs t) × (result.sets ≡ direct_calls (procs t) (program_of t) (replicate ours.procs 0)) }
    {
        let roots = recipe.table.roots;
        let mut sets = [0; ProcNumber::CEILING];
        for (f, &root) in roots.iter().enumerate() {
            sets[f] = row_calls(recipe, RowNumber(root));
        }
        let procs = Procs {
            number: roots.len(),
        };
        Reach { sets, procs }
    }

    // What is reached through procedure k besides: whoever reaches k reaches all that k reaches.
    fn through(&mut self, k: ProcNumber)
        requires { k.0 < self.old.procs.number }
        ensures { self.new ≡ record self.old { sets = through_also self.old.procs.number k.0 self.old.sets } }
    {
        let via = self.sets[k.0 as usize];
        for set in self.sets[..self.procs.number].iter_mut() {
            let more = if k.is_in(*set) { via } else { 0 };
            *set |= more;
        }
    }

    // Closes the calls: through every procedure, one after the other.
    fn close(&mut self)
        ensures { self.new ≡ record self.old { sets = closed_below self.old.procs.number self.old.procs.number self.old.sets } }
    {
        for k in 0..self.procs.number {
            self.through(ProcNumber(k as u16));
        }
    }

    // Whether no procedure is both in the set of main and in its own. Main is in its own if it reaches itself, so it is no case apart.
    fn none_in_both(&self) -> bool
        ensures { result ≡ none_in_both self.now.procs.number self.now.sets }
    {
        let main = self.sets[0];
        for (f, &set) in self.sets[..self.procs.number].iter().enumerate() {
            if ProcNumber(f as u16).is_in(main & set) {
                return false;
            }
        }
        true
    }
}

// Whether some procedure that main of a recipe reaches, main included, reaches itself.
pub(crate) fn reaches_itself(recipe: &Recipe<'_>) -> bool
    ensures { result ≡ wide (program_of (lists_of recipe.now.table)) }
{
    let mut reach = Reach::direct(recipe);
    reach.close();
    !reach.none_in_both()
}
