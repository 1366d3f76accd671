//! A set of precedences.
ghost use Rattle.std.specs.Prelude.{◌≡◌, ℕ, ◌||◌, ◌==◌};
ghost use Rattle.layouts.specs.Precedence.{has, empty};

/// Precedences, by a mark for each that there can be: one look for each, and no heap.
#[derive(Clone, Copy)]
pub struct Precedences {
    marks: [bool; 256],
}

impl Precedences {
    /// No precedence.
    pub fn none() -> Precedences
        ensures { result ≡ empty }
    {
        Precedences {
            marks: [false; 256],
        }
    }

    /// Whether it is one of them.
    pub fn contains(&self, precedence: u8) -> bool
        ensures { result ≡ has self.now precedence }
    {
        let place = usize::from(precedence);
        self.marks[place]
    }

    /// Adds one.
    pub fn insert(&mut self, precedence: u8)
        ensures { (p : ℕ) → has self.new p ≡ (p == precedence || has self.old p) }
    {
        self.marks[usize::from(precedence)] = true;
    }
}
