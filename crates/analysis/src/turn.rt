// What a round reads: the recipe, and the summaries of the round before.
ghost use Rattle.numbers.specs.Sizes.{ours};
ghost use Rattle.analysis.specs.Inner.{Whole};

use crate::state::State;
use recipe::Recipe;

// An admitted recipe, and a whole summary for each procedure. The recipe lies in it, so that its columns are one load away from each row.
#[derive(Clone, Copy)]
pub(crate) struct Turn<'a> {
    pub(crate) recipe: Recipe<'a>,
    pub(crate) held: &'a State,
    ghost whole: { Whole ours held.now },
}
