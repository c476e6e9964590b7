// The state of a round: a summary for each procedure there may be.
ghost use Rattle.std.specs.Prelude.{◌≡◌, ℕ, ◌<◌};
ghost use Rattle.numbers.specs.Sizes.{ours};
ghost use Rattle.analysis.specs.Summaries.{empty_words};
ghost use Rattle.analysis.specs.Inner.{held_for};

use crate::summary::{LabelSummary, Summary};
use numbers::{MATRIX_WORDS, ProcNumber};

// A summary for each procedure.
pub(crate) type State = [Summary; ProcNumber::CEILING];

// Round 0: the empty summary for every procedure.
pub(crate) fn empty() -> State
    ensures { (f : ℕ) → f < ours.procs → held_for result f ≡ empty_words ours.words }
{
    let nothing = Summary {
        pairs: [0u64; MATRIX_WORDS],
        labels: LabelSummary::empty(),
    };
    [nothing; ProcNumber::CEILING]
}
