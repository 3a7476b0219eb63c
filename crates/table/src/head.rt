// What was read before the rules, and before the rows of one: what these are checked against.
ghost use Rattle.std.specs.Prelude.{◌≡◌, ◌≤◌, ◌<◌, length};
ghost use Rattle.meaning.specs.Table as spec;
ghost use Rattle.meaning.specs.Accepted.{Dims};
ghost use Rattle.table.specs.Views.{verdict_with, used_of, Small};

use crate::marks::Marks;
use fields::{byte_at, outside};
use meaning::Refusal;

// A table whose header and dimensions were read: each dimension is at most 3.
#[derive(Clone, Copy)]
pub(crate) struct Begun<'a> {
    pub(crate) bytes: &'a [u8],
    ghost dims: { Dims bytes.now },
}

// A rule whose head and daughters were read: its rank and its daughters' dimensions are at most 3.
// Kept: no `Rule` of crate `rules` yet, since a table is not accepted before its last rule was read.
#[derive(Clone, Copy)]
pub(crate) struct Head<'a> {
    pub(crate) table: &'a [u8],
    pub(crate) at: usize,
    ghost small: { Small table.now at },
}

impl<'a> Head<'a> {
    // How many daughters the rule has.
    fn rank(self) -> u16
        ensures { result ≡ spec.rank_of self.entry.table.now self.entry.at }
    {
        byte_at(self.table, self.at + 3)
    }

    // How many rows the rule has: the dimension of its category.
    pub(crate) fn rows(self) -> u16
        ensures { result ≡ spec.dimension_of self.entry.table.now (spec.category_of self.entry.table.now self.entry.at) }
    {
        let category = usize::from(byte_at(self.table, self.at + 2));
        byte_at(self.table, 8 + category)
    }

    // The dimension of the rule's daughter k, which counts from 1.
    fn dimension(self, k: u16) -> u16
        ensures { result ≡ spec.dimension_of self.entry.table.now (spec.daughter_of self.entry.table.now self.entry.at k) }
    {
        let category = usize::from(byte_at(self.table, self.at + 3 + usize::from(k)));
        byte_at(self.table, 8 + category)
    }

    // Whether a constituent of a daughter is not used.
    pub(crate) fn missing(self, marks: &Marks) -> bool
        ensures { result ≡ spec.missing self.entry.table.now self.entry.at (used_of marks.now.used) }
    {
        (0..self.rank()).any(|k| marks.leaves(k, self.dimension(k + 1)))
    }

    // A symbol whose kind is not 0: the constituent n of the daughter kind, used at this place.
    #[tactic(auto, using(crate::proofs::Known::part_inside), unfolding(meaning::specs::Table::part))]
    pub(crate) fn part(self, at: usize, kind: u16, n: u16, marks: &mut Marks) -> Result<(), Refusal>
        requires { (1 ≤ kind) × (at < length self.table.now) }
        ensures { verdict_with result (used_of marks.new.used) ≡ spec.part self.entry.table.now self.entry.at at kind n (used_of marks.old.used) }
    {
        if self.rank() < kind {
            return Err(Refusal::Symbol(at));
        }
        if outside(1, self.dimension(kind), n) {
            return Err(Refusal::Symbol(at + 1));
        }
        let k = usize::from(kind) - 1;
        let c = usize::from(n) - 1;
        if marks.is_used(k, c) {
            return Err(Refusal::Twice(at));
        }
        marks.mark(k, c);
        Ok(())
    }
}
