// The listing of a recipe's pairs into lent bytes.
#![tactic(auto)]

ghost use Rattle.std.specs.Prelude.{◌≡◌, ◌≤◌, ◌<◌, ◌^◌, length};
ghost use Rattle.numbers.specs.General.{laid};
ghost use Rattle.numbers.specs.Sizes.{ours, matrix_words};
ghost use Rattle.matrix.specs.Matrix.{pairs_at_or_above};
ghost use Rattle.recipe.specs.Statements.{program_of};
ghost use Rattle.recipe.specs.Tables.{lists_of};
ghost use Rattle.calls.specs.Reached.{wide};
ghost use Rattle.analysis.specs.Replies.{main_pairs};
ghost use Rattle.listing.specs.Listing.{listing};
ghost use Rattle.listing.specs.Replies.{listing_of, fitted, held_after, listed, matrix_listed, bytes_listed};

mod lines;

use calls::Verdict;
use numbers::{MATRIX_WORDS, Refusal};
use recipe::{Recipe, Table};
use text::{Count, Front, Sink};

// No listing has more bytes.
pub const LONGEST: usize = 11858;

// A listing before it is written: the pairs, how many they are, the rounds of the analysis, and whether the verdict is wide.
#[derive(Drop)]
struct Listing<'a> {
    pairs: &'a [u64; MATRIX_WORDS],
    count: u32,
    rounds: u32,
    wide: bool,
    ghost counted: { count ≡ pairs_at_or_above ours.words pairs.now },
    ghost few: { rounds < 2 ^ 64 },
}

impl Listing<'_> {
    // Tells the listing to a sink.
    fn tell<S: Sink>(&self, out: &mut S)
        ensures { let l = self.now in S.takes out.old (listing ours.words l.pairs.now l.rounds l.wide) out.new }
    {
        lines::opening(out, self.count as usize, self.rounds as usize, self.wide);
        lines::all(out, self.pairs);
    }

    // Hands the pairs and their listing over, where the listing fits the bytes. Where it does not, nothing is written.
    #[tactic(auto, using(crate::proofs::ReplyLaws::too_long_lem, crate::proofs::ReplyLaws::fits, matrix::proofs::MatrixLaws::copied_laid))]
    fn hand_over(&self, matrix: &mut [u64], bytes: &mut [u8]) -> Result<usize, Refusal>
        requires { matrix_words ours.words ≤ length matrix.old }
        ensures reply { let l = self.now in result ≡ fitted (listing ours.words l.pairs.now l.rounds l.wide) (length bytes.old) }
        ensures marks { let m = matrix.old in matrix.new ≡ held_after (laid self.now.pairs.now m) m result }
        ensures text { let l = self.now in let b = bytes.old in
            bytes.new ≡ held_after (laid (listing ours.words l.pairs.now l.rounds l.wide) b) b result }
    {
        let mut count = Count(0);
        self.tell(&mut count);
        let needed = count.0;
        if bytes.len() < needed {
            return Err(Refusal::ShortBytes);
        }
        let mut front = Front { bytes, at: 0 };
        self.tell(&mut front);
        let pairs = self.pairs;
        matrix::copy(matrix, pairs);
        Ok(needed)
    }
}

// Whether the verdict on an admitted table, which is never refused, is wide.
#[tactic(auto, using(calls::proofs::VerdictLaws::wide_given, calls::proofs::VerdictLaws::exact_given, calls::proofs::VerdictLaws::verdict_not_refused))]
fn is_wide(recipe: &Recipe<'_>) -> bool
    ensures { result ≡ wide (program_of (lists_of recipe.now.table)) }
{
    match calls::verdict_on(&recipe.table) {
        Ok(Verdict::Wide) => true,
        Ok(Verdict::Exact) | Err(_) => false,
    }
}

// Lists the pairs of an admitted table.
#[tactic(auto, unfolding(crate::specs::Replies::listing_of), using(crate::proofs::ReplyLaws::analysed_admitted, crate::proofs::ReplyLaws::pairs_given))]
fn list_admitted(
    recipe: &Recipe<'_>,
    matrix: &mut [u64],
    bytes: &mut [u8],
) -> Result<usize, Refusal>
    requires { matrix_words ours.words ≤ length matrix.old }
    ensures reply { let p = program_of (lists_of recipe.now.table) in result ≡ fitted (listing_of ours p) (length bytes.old) }
    ensures marks { let p = program_of (lists_of recipe.now.table) in
        matrix.new ≡ held_after (laid (main_pairs ours.words p) matrix.old) matrix.old result }
    ensures text { let p = program_of (lists_of recipe.now.table) in
        bytes.new ≡ held_after (laid (listing_of ours p) bytes.old) bytes.old result }
{
    // A matrix of its own, in fixed memory: the lent one changes only where the listing fits.
    let mut pairs = [0u64; MATRIX_WORDS];
    let rounds = analysis::analyse(&recipe.table, &mut pairs)?;
    let listing = Listing {
        pairs: &pairs,
        count: matrix::count(&pairs),
        rounds,
        wide: is_wide(recipe),
    };
    listing.hand_over(matrix, bytes)
}

// Puts the listing of a recipe's pairs to the front of the lent bytes, marks the pairs in the lent matrix, and hands back the
// listing's length. What is refused, a listing that does not fit among it, leaves the bytes and the matrix as they were.
#[tactic(auto, using(crate::proofs::ReplyLaws::in_order))]
pub fn list_pairs(table: &Table<'_>, matrix: &mut [u64], bytes: &mut [u8]) -> Result<usize, Refusal>
    ensures reply { result ≡ listed ours (lists_of table.now) (length matrix.old) (length bytes.old) }
    ensures marks { matrix.new ≡ matrix_listed ours (lists_of table.now) matrix.old (length bytes.old) }
    ensures text { bytes.new ≡ bytes_listed ours (lists_of table.now) (length matrix.old) bytes.old }
{
    table.judge_with(matrix.len())?;
    let recipe = Recipe { table: *table };
    list_admitted(&recipe, matrix, bytes)
}
