// Document 01's three numbers of each call's answer, and the lent array that they are written into.
ghost use Rattle.std.specs.Prelude.{◌≡◌, [], ◌∷◌};
ghost use Rattle.meaning.specs.Refusals as refusal;
ghost use Rattle.reader.specs.Answers as found;
ghost use Rattle.sentence.specs.Answers as said;
ghost use Rattle.tree.specs.Answers as grown;

use meaning::{Refusal, code_of, place_of};
use reader::{ReadRefusal, Reading};
use sentence::SentenceRefusal;
use tree::TreeRefusal;

// Code, place and count.
// Kept: the code is a number, since C is handed it (`mcg_read`, `mcg_tree`, `mcg_sentence`).
#[derive(Clone, Copy)]
pub(crate) struct Numbers {
    code: u64,
    place: usize,
    count: usize,
}

impl Numbers {
    fn new(code: u64, place: usize, count: usize) -> Numbers
        ensures { (result.code ≡ code) × (result.place ≡ place) × (result.count ≡ count) }
    {
        Numbers { code, place, count }
    }

    // Writes the three numbers.
    pub(crate) fn hand_back(self, answer: &mut [u64; 3])
        ensures { answer.new ≡ self.code ∷ self.place ∷ self.count ∷ [] }
    {
        *answer = [self.code, self.place as u64, self.count as u64];
    }
}

// The numbers of a refusal of the table or the words.
impl From<Refusal> for Numbers {
    ghost from_gives = { λ why n. (n.code ≡ refusal.code_of why) × (n.place ≡ refusal.place_of why) × (n.count ≡ 0) };

    fn from(why: Refusal) -> Numbers {
        Numbers::new(code_of(why), place_of(why), 0)
    }
}

// The reader's three numbers.
impl From<Result<Reading, ReadRefusal>> for Numbers {
    ghost from_gives = { λ a n. (n.code ≡ found.code_of a) × (n.place ≡ found.place_of a) × (n.count ≡ found.count_of a) };

    fn from(a: Result<Reading, ReadRefusal>) -> Numbers {
        match a {
            Ok(Reading::Yes { place, count }) => Numbers::new(0, place, count),
            Ok(Reading::No { count }) => Numbers::new(1, 0, count),
            Err(ReadRefusal::Input(why)) => Numbers::from(why),
            Err(ReadRefusal::Full(room)) => Numbers::new(16, room, 0),
            Err(ReadRefusal::Deep) => Numbers::new(22, 0, 0),
        }
    }
}

// The tree writer's three numbers.
impl From<Result<usize, TreeRefusal>> for Numbers {
    ghost from_gives = { λ a n. (n.code ≡ grown.code_of a) × (n.place ≡ grown.place_of a) × (n.count ≡ grown.count_of a) };

    fn from(a: Result<usize, TreeRefusal>) -> Numbers {
        match a {
            Ok(nodes) => Numbers::new(0, 0, nodes),
            Err(TreeRefusal::Input(why)) => Numbers::from(why),
            Err(TreeRefusal::Chart(record)) => Numbers::new(17, record, 0),
            Err(TreeRefusal::Place(root)) => Numbers::new(18, root, 0),
            Err(TreeRefusal::TreeRoom(room)) => Numbers::new(19, room, 0),
        }
    }
}

// The sentence writer's three numbers.
impl From<Result<usize, SentenceRefusal>> for Numbers {
    ghost from_gives = { λ a n. (n.code ≡ said.code_of a) × (n.place ≡ said.place_of a) × (n.count ≡ said.count_of a) };

    fn from(a: Result<usize, SentenceRefusal>) -> Numbers {
        match a {
            Ok(words) => Numbers::new(0, 0, words),
            Err(SentenceRefusal::Table(why)) => Numbers::from(why),
            Err(SentenceRefusal::TreeList(node)) => Numbers::new(20, node, 0),
            Err(SentenceRefusal::TextRoom(needed)) => Numbers::new(21, needed, 0),
        }
    }
}
