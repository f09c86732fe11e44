//! Who picks the next operation.

ghost use Rattle.std.specs.Prelude.{◌≡◌, ℕ, ◌<◌, ◌≤◌, ◌%◌, ◌/◌};

/// Picks one of several operations that are ready. Its meaning is its answer, and the chooser that stands afterwards.
pub trait Chooser {
    /// The index that it answers of so many.
    ghost answer: { Self → ℕ → ℕ };

    /// The chooser after that answer.
    ghost after: { Self → ℕ → Self };

    /// The index of one of `n`.
    fn pick(&mut self, n: usize) -> usize
        requires { 1 ≤ n }
        ensures answer { result ≡ answer self.old n }
        ensures within { result < n }
        ensures after { self.new ≡ after self.old n };
}

/// Picks by the digits of a number: of n, the remainder by n, and from then on by the quotient.
#[derive(Debug, Drop)]
pub struct Digits {
    pub(crate) number: u64,
}

impl Digits {
    /// Picks by the digits of this number.
    pub fn new(number: u64) -> Digits
        ensures { result.number ≡ number }
    {
        Digits { number }
    }
}

impl Chooser for Digits {
    ghost answer = { λ digits n. digits.number % n };

    ghost after = { λ digits n. record { number = digits.number / n } };

    fn pick(&mut self, n: usize) -> usize {
        let count = n as u64;
        let digit = self.number % count;
        self.number /= count;
        digit as usize
    }
}
