// The check of a sentence's words, alone and after that of its table, and the reading of the words.
#![tactic(auto)]

ghost use Rattle.std.specs.Prelude.{◌≡◌};
ghost use Rattle.meaning.specs.Decode.{check_input};
ghost use Rattle.table.specs.Views.{verdict_of};

use meaning::Refusal;
use table::check_table;

mod words;

pub use words::{check_words, read_words};

// What a table and a sentence are answered: the table's refusal, or else that of the words.
#[tactic(auto, unfolding(meaning::specs::Decode::check_input))]
pub fn check_input(table: &[u8], words: &[u8]) -> Result<(), Refusal>
    ensures { verdict_of result ≡ check_input table.now words.now }
{
    check_table(table)?;
    check_words(words)
}
