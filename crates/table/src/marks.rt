// The use marks of a rule: which constituents of which daughters its rows have used so far.
ghost use Rattle.std.specs.Prelude.{◌≡◌, not, ◌≤◌, ◌<◌};
ghost use Rattle.meaning.specs.Table as spec;
ghost use Rattle.meaning.specs.Table.{any};
ghost use Rattle.table.specs.Views.{used_of, Square};

// A mark for each constituent of each daughter, both from 0; a rule has at most three of either.
#[derive(Clone, Copy)]
pub(crate) struct Marks {
    used: [[bool; 3]; 3],
    ghost square: { Square used },
}

impl Marks {
    // The marks of a rule whose rows have used nothing yet.
    #[tactic(auto, using(crate::proofs::Uses::none_marked))]
    pub(crate) fn new() -> Self
        ensures { used_of result.used ≡ spec.unused }
    {
        Marks {
            used: [[false; 3]; 3],
        }
    }

    // Whether constituent c of daughter k is used.
    pub(crate) fn is_used(&self, k: usize, c: usize) -> bool
        requires { (k < 3) × (c < 3) }
        ensures { result ≡ used_of self.now.used k c }
    {
        self.used[k][c]
    }

    // Marks constituent c of daughter k as used.
    #[tactic(auto, using(crate::proofs::Uses::marked))]
    pub(crate) fn mark(&mut self, k: usize, c: usize)
        requires { (k < 3) × (c < 3) }
        ensures { used_of self.new.used ≡ spec.mark k c (used_of self.old.used) }
    {
        self.used[k][c] = true;
    }

    // Whether one of the first dim constituents of daughter k is not used.
    pub(crate) fn leaves(&self, k: u16, dim: u16) -> bool
        requires { (k < 3) × (dim ≤ 3) }
        ensures { result ≡ any dim (λ c. not (used_of self.now.used k c)) }
    {
        let marks = &self.used[usize::from(k)];
        marks[..usize::from(dim)].contains(&false)
    }
}
