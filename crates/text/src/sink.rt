// What lines are told to, field by field: one sink counts its bytes, the other puts them to the front of lent bytes.
ghost use Rattle.std.specs.Prelude.{◌≡◌, ◌∷◌, [], ◌++◌, List, ℕ, refl};
ghost use Rattle.std.proofs.Common.{◌∙◌};
ghost use Rattle.text.specs.Inner.{Put};
ghost use Rattle.text.specs.Numbers.{spelled};
ghost use Rattle.text.specs.Sinks.{Counts, counts_nothing, counts_joined, put_nothing, put_behind};

use crate::{digits, put_number, put_text};

// What takes a text field by field.
pub trait Sink {
    // it took a text and is another then
    ghost takes: { Self → List ℕ → Self → Type 0 };

    // Takes a text, and the byte that ends its field.
    fn text(&mut self, text: &[u8], end: u8)
        ensures { takes self.old (text.now ++ (end ∷ [])) self.new };

    // Takes a number, and the byte that ends its field.
    fn number(&mut self, n: usize, end: u8)
        ensures { takes self.old (spelled n ++ (end ∷ [])) self.new };

    // no text leaves it as it is
    ghost nothing: { (s : Self) → takes s [] s };

    // a text and then another are their join
    ghost joined: { (s t u : Self) (a b : List ℕ) → takes s a t → takes t b u → takes s (a ++ b) u };
}

// The bytes of a text, counted.
#[derive(Drop)]
pub struct Count(pub usize);

impl Sink for Count {
    ghost takes = { λ s a t. Counts s.0 a t.0 };

    ghost nothing = { λ s. counts_nothing s.0 };

    ghost joined = { λ s t u a b p q. counts_joined s.0 t.0 u.0 a b p q };

    fn text(&mut self, text: &[u8], end: u8) {
        self.0 = self.0.wrapping_add(text.len() + 1);
    }

    fn number(&mut self, n: usize, end: u8) {
        self.0 = self.0.wrapping_add(digits(n) + 1);
    }
}

// Lent bytes, with the place where the next field belongs.
#[derive(Drop)]
pub struct Front<'a> {
    pub bytes: &'a mut [u8],
    pub at: usize,
}

impl Sink for Front<'_> {
    ghost takes = { λ s a t. (t.bytes.ghost_name ≡ s.bytes.ghost_name) × Put s.bytes.now s.at a t.bytes.now t.at };

    ghost nothing = { λ s. (refl, put_nothing s.bytes.now s.at) };

    ghost joined = { λ s t u a b p q. (q.0 ∙ p.0, put_behind p.1 q.1) };

    fn text(&mut self, text: &[u8], end: u8) {
        self.at = put_text(self.bytes, self.at, text, end);
    }

    fn number(&mut self, n: usize, end: u8) {
        self.at = put_number(self.bytes, self.at, n, end);
    }
}
