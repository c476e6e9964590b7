// The recipe table: its rows, and the judge that admits a table or refuses it.
#![tactic(auto)]

mod rules;
mod usage;

ghost use Rattle.std.specs.Prelude.{◌≡◌};
ghost use Rattle.numbers.specs.Sizes.{ours};
ghost use Rattle.recipe.specs.Tables.{kind_of, meant, lists_of};
ghost use Rattle.recipe.specs.Rules.{judged, judged_with, IsAdmitted};

use numbers::{MATRIX_WORDS, Refusal};
use rules::SizedTable;

// A row of the table: its kind, from 0 to 6, and two operands. C declares the same record.
#[repr(C)]
#[derive(Clone, Copy)]
pub struct Row {
    pub kind: u8,
    pub x: u16,
    pub y: u16,
}

// The seven kinds of row, in the order of their numbers.
#[derive(Clone, Copy, PartialEq, Eq)]
pub enum Kind {
    Skip,
    Step,
    Seq,
    Loop,
    Async,
    Finish,
    Call,
}

impl Kind {
    // The number of the last kind.
    pub const LAST: u8 = 6;
}

// A number that is no kind's.
#[derive(Clone, Copy, PartialEq, Eq)]
pub struct UnknownKind;

impl TryFrom<u8> for Kind {
    type Error = UnknownKind;

    ghost try_from_gives = { λ number result. kind_of number ≡ meant result };

    fn try_from(number: u8) -> Result<Kind, UnknownKind> {
        match number {
            0 => Ok(Kind::Skip),
            1 => Ok(Kind::Step),
            2 => Ok(Kind::Seq),
            3 => Ok(Kind::Loop),
            4 => Ok(Kind::Async),
            5 => Ok(Kind::Finish),
            6 => Ok(Kind::Call),
            7..=255 => Err(UnknownKind),
        }
    }
}

// A table in lent slices: the rows' kinds, their first and their second operands, and the procedures' roots. Three slices for the rows, as C
// lends them.
#[derive(Clone, Copy)]
pub struct Table<'a> {
    pub kinds: &'a [u8],
    pub xs: &'a [u16],
    pub ys: &'a [u16],
    pub roots: &'a [u16],
}

// A table that the judge has admitted.
#[derive(Clone, Copy)]
pub struct Recipe<'a> {
    pub table: Table<'a>,
    ghost admitted: { IsAdmitted ours (lists_of table) },
}

impl Table<'_> {
    // Judges the table. It reads each row and each root a fixed number of times.
    #[tactic(auto, unfolding(crate::specs::Rules::judged), using(crate::proofs::Judging::in_order))]
    pub fn judge(&self) -> Result<(), Refusal>
        ensures { result ≡ judged ours (lists_of self.now) }
    {
        rules::sizes(self)?;
        SizedTable { table: *self }.further()
    }

    // Judges it for whoever is lent a matrix of so many words: wrong sizes first, then a matrix that is too short, then the rest.
    #[tactic(auto, unfolding(crate::specs::Rules::judged_with), using(crate::proofs::WithMatrix::matrix_in_order))]
    pub fn judge_with(&self, words: usize) -> Result<(), Refusal>
        ensures { result ≡ judged_with ours (lists_of self.now) words }
    {
        rules::sizes(self)?;
        if words < MATRIX_WORDS {
            return Err(Refusal::ShortMatrix);
        }
        SizedTable { table: *self }.further()
    }
}
