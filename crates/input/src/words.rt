// A sentence's words, lent as bytes: two bytes each, the low one first.
ghost use Rattle.std.specs.Prelude.{◌≡◌, ◌≤◌};
ghost use Rattle.meaning.specs.Table.{times};
ghost use Rattle.meaning.specs.Decode.{words_of, word_there, check_words};
ghost use Rattle.table.specs.Views.{verdict_of, verdict_with};
ghost use Rattle.input.specs.Views.{filled};

use fields::number_at;
use meaning::Refusal;

// That none of the first count words is 0, or the first that is.
#[tactic(auto, using(fields::proofs::Laws::turns), unfolding(meaning::specs::Decode::word_there))]
fn check_each(words: &[u8], count: usize) -> Result<(), Refusal>
    requires { count ≤ 64 }
    ensures { verdict_with result count ≡ times count (word_there words.now) 0 }
{
    for i in 0..count {
        if number_at(words, 2 * i) == 0 {
            return Err(Refusal::ZeroWord(i));
        }
    }
    Ok(())
}

// What a sentence's bytes are answered: nothing to say, or the first refusal in document 01's order.
#[tactic(auto, unfolding(meaning::specs::Decode::check_words))]
pub fn check_words(words: &[u8]) -> Result<(), Refusal>
    ensures { verdict_of result ≡ check_words words.now }
{
    let count = words.len() / 2;
    if 64 < count {
        return Err(Refusal::Long);
    }
    if words.len() % 2 == 1 {
        return Err(Refusal::Odd(words.len() - 1));
    }
    check_each(words, count)
}

// Writes the words, as many as the slice holds; the rest of the slice stays as lent.
#[tactic(auto, using(crate::proofs::Sentence::writes))]
pub fn read_words(bytes: &[u8], words: &mut [u16])
    ensures { words.new ≡ filled (words_of bytes.now) words.old }
{
    let count = words.len().min(bytes.len() / 2);
    for (i, word) in words[..count].iter_mut().enumerate() {
        *word = number_at(bytes, 2 * i);
    }
}
