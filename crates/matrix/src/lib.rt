// The matrix of label pairs: one word a label, bit j of word i for the pair (i,j).
// A lent slice may be of any length: words that it lacks count as 0 and are not written, words beyond the matrix stay.
#![tactic(auto)]

ghost use Rattle.std.specs.Prelude.{◌≡◌, ◌∷◌, [], ◌-◌, ◌*◌, ◌^◌, ◌<◌, min};
ghost use Rattle.std.specs.Int.Bits.{bit_and};
ghost use Rattle.std.specs.Int.Count.{ones};
ghost use Rattle.numbers.specs.Sizes.{ours, word_bits, label_ceiling, matrix_words};
ghost use Rattle.labels.specs.Words.{changed};
ghost use Rattle.matrix.specs.Matrix.{merged, crossed, pairs_at_or_above};
ghost use Rattle.matrix.specs.Inner.{joining, cleared, copied};

use labels::Label;
use numbers::MATRIX_WORDS;

// How many words of a matrix a slice of this length holds.
fn held(len: usize) -> usize
    ensures { result ≡ min (matrix_words ours.words) len }
{
    len.min(MATRIX_WORDS)
}

// Joins the partners to the word of each label of the set. Only the labels that are in it are visited.
fn join_each(matrix: &mut [u64], set: u64, partners: u64)
    ensures { matrix.new ≡ changed (matrix_words ours.words) (joining set partners) matrix.old }
{
    let mut rest = set;
    // A `while` and no `for`: what is left is the bits of a word, over which no iterator runs.
    while rest != 0 {
        let label = rest.trailing_zeros();
        let i = label as usize;
        if i < matrix.len() {
            matrix[i] |= partners;
        }
        rest &= rest - 1;
    }
}

// Marks every (x,y) and every (y,x) with x in a and y in b. Where one of them is empty, which is often so, nothing is to be done.
// In three sets, so that the word of each label is visited once.
pub fn cross(matrix: &mut [u64], a: u64, b: u64)
    ensures { matrix.new ≡ crossed ours.words (a ∷ []) (b ∷ []) matrix.old }
{
    if a == 0 || b == 0 {
        return;
    }
    join_each(matrix, a & b, a | b);
    join_each(matrix, a & !b, b);
    join_each(matrix, b & !a, a);
}

// Marks every pair that is marked in the other matrix. Its words are read by number: of words changed through a zip a proof knows none.
pub fn merge(matrix: &mut [u64], other: &[u64])
    ensures { matrix.new ≡ merged ours.words matrix.old other.now }
{
    let n = held(matrix.len()).min(other.len());
    for (i, word) in matrix[..n].iter_mut().enumerate() {
        *word |= other[i];
    }
}

// Marks no pair any more.
pub fn clear(matrix: &mut [u64])
    ensures { matrix.new ≡ cleared ours.words matrix.old }
{
    let n = held(matrix.len());
    matrix[..n].fill(0);
}

// Marks the pairs of the other matrix and no others.
pub fn copy(matrix: &mut [u64], other: &[u64])
    ensures { matrix.new ≡ copied ours.words matrix.old other.now }
{
    let n = held(matrix.len());
    let there = n.min(other.len());
    matrix[..there].copy_from_slice(&other[..there]);
    matrix[there..n].fill(0);
}

// How many pairs of the label with itself and those above it its word marks.
fn pairs_from(x: u64, label: Label) -> u32
    requires { label.0 < label_ceiling ours.words }
    ensures { result ≡ ones (bit_and x (2 ^ word_bits - 2 ^ label.0)) }
{
    u64::count_ones(x & (0xffff_ffff_ffff_ffff << label.0))
}

// The number of marked pairs (i,j) with i not above j.
pub fn count(matrix: &[u64]) -> u32
    ensures { result ≡ pairs_at_or_above ours.words matrix.now }
{
    let n = held(matrix.len());
    let mut sum = 0;
    for (i, word) in matrix[..n].iter().enumerate() {
        sum += pairs_from(*word, Label(i as u8));
    }
    sum
}
