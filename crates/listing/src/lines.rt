// The lines of a listing, told to a sink.
ghost use Rattle.std.specs.Prelude.{◌≡◌, ◌∷◌, [], ◌++◌, ◌*◌, ◌≤◌, ◌<◌, length};
ghost use Rattle.numbers.specs.Sizes.{ours, label_ceiling};
ghost use Rattle.listing.specs.Pairs.{pairs_of, pairs};
ghost use Rattle.listing.specs.Listing.{verdict_text, opening, pair_line, lines};

use labels::{Label, Member};
use numbers::MATRIX_WORDS;
use text::Sink;

// The labels are the numbers below this one.
const LABELS: u8 = Label::CEILING as u8;

// The verdict as it is listed.
fn verdict_text(wide: bool) -> &'static [u8]
    ensures { result.now ≡ verdict_text wide }
{
    if wide { b"wide" } else { b"exact" }
}

// Tells the opening line.
pub(crate) fn opening<S: Sink>(out: &mut S, count: usize, rounds: usize, wide: bool)
    ensures { S.takes out.old (opening count rounds wide) out.new }
{
    out.text(b"pairs", b'\t');
    out.number(count, b'\t');
    out.text(b"rounds", b'\t');
    out.number(rounds, b'\t');
    out.text(verdict_text(wide), b'\n');
}

// Tells the line of a pair.
fn line<S: Sink>(out: &mut S, i: Label, j: Label)
    ensures { S.takes out.old (pair_line i.0 j.0) out.new }
{
    out.number(i.0 as usize, b'\t');
    out.number(j.0 as usize, b'\n');
}

// Tells the lines of one label's pairs.
#[tactic(auto, using(crate::proofs::PairLaws::no_lines_of_none))]
fn row<S: Sink>(out: &mut S, partners: u64, i: Label)
    requires { i.0 < label_ceiling ours.words }
    ensures { S.takes out.old (lines (pairs_of ours.words (partners ∷ []) i.0)) out.new }
{
    // Most labels have no partners, and a listing is told twice.
    if partners == 0 {
        return;
    }
    for j in i.0..LABELS {
        if Label(j).is_in(partners) {
            line(out, i, Label(j));
        }
    }
}

// Tells the lines of all pairs.
pub(crate) fn all<S: Sink>(out: &mut S, matrix: &[u64; MATRIX_WORDS])
    ensures { S.takes out.old (lines (pairs ours.words matrix.now)) out.new }
{
    for (i, &partners) in matrix.iter().enumerate() {
        // A word's index is its label, which is below 64.
        row(out, partners, Label(i as u8));
    }
}
