// The reader's answer, and why it refuses.
ghost use Rattle.std.specs.Prelude.{◌≡◌};
ghost use Rattle.reader.specs.declared.answer.ReadRefusal.TheVariants.{Input};

use meaning::Refusal;

// Whether the goal is one of the items: its place if it is, and how many items there are.
#[derive(Clone, Copy, Debug, PartialEq, Eq)]
pub enum Reading {
    Yes { place: usize, count: usize },
    No { count: usize },
}

// The refusal of the table or the words; the room that is too small; a height that is too great, which is never given.
#[derive(Clone, Copy, Debug, PartialEq, Eq)]
pub enum ReadRefusal {
    Input(Refusal),
    Full(usize),
    Deep,
}

impl From<Refusal> for ReadRefusal {
    ghost from_gives = { λ why r. r ≡ Input why };

    fn from(why: Refusal) -> ReadRefusal {
        ReadRefusal::Input(why)
    }
}
