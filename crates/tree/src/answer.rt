// Why the tree writer refuses.
ghost use Rattle.std.specs.Prelude.{◌≡◌};
ghost use Rattle.tree.specs.declared.answer.TreeRefusal.TheVariants.{Input};

use meaning::Refusal;

// The refusal of the table or the words; the first bad record of the chart, or 0 where it has too many; the root that is not there; the
// room that does not hold the nodes.
// Kept: 0 as the place of too many records, since document 01 gives it that place.
#[derive(Clone, Copy, Debug, PartialEq, Eq)]
pub enum TreeRefusal {
    Input(Refusal),
    Chart(usize),
    Place(usize),
    TreeRoom(usize),
}

impl From<Refusal> for TreeRefusal {
    ghost from_gives = { λ why r. r ≡ Input why };

    fn from(why: Refusal) -> TreeRefusal {
        TreeRefusal::Input(why)
    }
}
