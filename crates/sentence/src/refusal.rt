// Why the sentence writer writes nothing.
ghost use Rattle.std.specs.Prelude.{◌≡◌};
ghost use Rattle.sentence.specs.declared.refusal.SentenceRefusal.TheVariants.{Table};

use meaning::Refusal;

// The table's refusal; the node at which the list is wrong; how many words the text has no room for.
#[derive(Clone, Copy, PartialEq, Eq, Debug)]
pub enum SentenceRefusal {
    Table(Refusal),
    TreeList(usize),
    TextRoom(usize),
}

impl From<Refusal> for SentenceRefusal {
    ghost from_gives = { λ why e. e ≡ Table why };

    fn from(why: Refusal) -> Self {
        SentenceRefusal::Table(why)
    }
}
