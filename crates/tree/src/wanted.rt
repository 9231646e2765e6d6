// The numbers of the components that are wanted: a row in fixed memory with its count, since the contracts want the list of its numbers alone, which the Model
// gives.
ghost use Rattle.std.specs.Prelude.{◌≡◌, ◌<◌, [], ◌∷◌, ◌++◌, length};
ghost use Rattle.tree.specs.inner.Below.{holds};

use std::marker::Model;

// The first `count` numbers: one that is asked for, and at most one for each pair.
#[derive(Drop)]
pub(crate) struct Wanted {
    count: usize,
    numbers: [u16; 257],
}

impl Model for Wanted {
    ghost use Rattle.std.specs.Prelude.{ℕ, ◌≤◌, List, take};

    ghost Value = { List ℕ };

    ghost view = { λ w. take w.count w.numbers };

    ghost invariant = { λ w. w.count ≤ 257 };
}

impl Wanted {
    pub(crate) fn only(number: u16) -> Self
        ensures { result ≡ number ∷ [] }
    {
        Wanted {
            count: 1,
            numbers: [number; 257],
        }
    }

    pub(crate) fn push(&mut self, number: u16)
        requires { length self.old < 257 }
        ensures { self.new ≡ self.old ++ number ∷ [] }
    {
        self.numbers[self.count] = number;
        self.count += 1;
    }

    pub(crate) fn holds(&self, number: u16) -> bool
        ensures { result ≡ holds self.now number }
    {
        self.numbers[..self.count].contains(&number)
    }
}
