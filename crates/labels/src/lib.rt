// Sets of labels, each one 64-bit number with label l at bit l.
#![tactic(auto)]

ghost use Rattle.std.specs.Prelude.{◌≡◌, ◌∷◌, [], ℕ, eqb};
ghost use Rattle.numbers.specs.Sizes.{ours};
ghost use Rattle.labels.specs.Sets.{member, single, union};

use numbers::ProcNumber;

// What a set holds at the bit of its number: a label in a set of labels, a procedure in a set of procedures.
pub trait Member: Copy {
    ghost bit_number: { Self → ℕ };

    // The bit that stands for it.
    fn number(self) -> u32
        ensures { result ≡ bit_number self };

    // The set of this member alone, and the empty set where a word has no bit of its number.
    fn alone(self) -> u64
        ensures { result ∷ [] ≡ single ours.words (bit_number self) }
    {
        let l = self.number();
        if l < u64::BITS { 1u64 << l } else { 0 }
    }

    // Whether this member is in the set.
    #[tactic(auto, using(crate::proofs::OneWord::none_beyond))]
    fn is_in(self, set: u64) -> bool
        ensures { result ≡ eqb (member (set ∷ []) (bit_number self)) 1 }
    {
        set & self.alone() != 0
    }
}

// A step's label. It is no procedure number and no row number.
#[derive(Clone, Copy)]
pub struct Label(pub u8);

impl Label {
    // Labels are below this number: one word holds a set of them.
    pub const CEILING: usize = 64;
}

impl Member for Label {
    ghost bit_number = { λ label. label.0 };

    fn number(self) -> u32 {
        let Label(label) = self;
        u32::from(label)
    }
}

impl Member for ProcNumber {
    ghost bit_number = { λ proc. proc.0 };

    fn number(self) -> u32 {
        let ProcNumber(proc) = self;
        u32::from(proc)
    }
}

// The labels of either set.
pub fn join(a: u64, b: u64) -> u64
    ensures { result ∷ [] ≡ union ours.words (a ∷ []) (b ∷ []) }
{
    a | b
}
