// What a statement does, in words: the pairs of labels that may run together in it, the labels that may still run when it has completed, and
// the labels that run in it.
ghost use Rattle.std.specs.Prelude.{◌≡◌, ◌∷◌, []};
ghost use Rattle.numbers.specs.Sizes.{ours, matrix_words};
ghost use Rattle.labels.specs.Sets.{none, single, union};
ghost use Rattle.analysis.specs.Summaries.{empty_words};
ghost use Rattle.analysis.specs.Inner.{summary_words};

use labels::{Label, Member};
use numbers::MATRIX_WORDS;

// O, what may still run, and L, what runs: each a set of labels as one word. The pairs, M, stand in a matrix beside it.
#[derive(Clone, Copy, PartialEq, Eq)]
pub struct LabelSummary {
    pub o: u64,
    pub l: u64,
}

// M, the pairs of labels that may run together, as a matrix.
pub(crate) type Pairs = [u64; MATRIX_WORDS];

// The summary of a procedure: its pairs, and its labels.
#[derive(Clone, Copy, PartialEq, Eq)]
pub struct Summary {
    pub pairs: Pairs,
    pub labels: LabelSummary,
}

impl LabelSummary {
    // The empty summary: no label, and where no pair is marked no pair.
    pub(crate) fn empty() -> LabelSummary
        ensures { summary_words result (none (matrix_words ours.words)) ≡ empty_words ours.words }
    {
        LabelSummary { o: 0, l: 0 }
    }

    // A step: its label runs, and is over when the step is.
    pub(crate) fn step(label: Label) -> LabelSummary
        ensures stays { result.o ∷ [] ≡ none ours.words }
        ensures runs { result.l ∷ [] ≡ single ours.words label.0 }
    {
        LabelSummary {
            o: LabelSummary::empty().o,
            l: label.alone(),
        }
    }

    // This statement joined with the next: unions.
    pub(crate) fn joined_with(self, next: LabelSummary) -> LabelSummary
        ensures stays { result.o ∷ [] ≡ union ours.words (self.o ∷ []) (next.o ∷ []) }
        ensures runs { result.l ∷ [] ≡ union ours.words (self.l ∷ []) (next.l ∷ []) }
    {
        LabelSummary {
            o: labels::join(self.o, next.o),
            l: labels::join(self.l, next.l),
        }
    }

    // A loop: as its body.
    pub(crate) fn looped(self) -> LabelSummary
        ensures { result ≡ self }
    {
        self
    }

    // A side branch: all that runs in it may still run.
    pub(crate) fn spawned(self) -> LabelSummary
        ensures stays { result.o ≡ self.l }
        ensures runs { result.l ≡ self.l }
    {
        LabelSummary {
            o: self.l,
            l: self.l,
        }
    }

    // A wait: nothing still runs.
    pub(crate) fn waited(self) -> LabelSummary
        ensures stays { result.o ∷ [] ≡ none ours.words }
        ensures runs { result.l ≡ self.l }
    {
        LabelSummary {
            o: LabelSummary::empty().o,
            l: self.l,
        }
    }
}
