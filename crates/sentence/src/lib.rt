// The sentence writer: a tree list, each node's function number before its daughters', is written as the words of its tree.
#![tactic(auto)]

ghost use Rattle.std.specs.Prelude.{◌≡◌, ◌≤◌, length};
ghost use Rattle.std.proofs.Math.Option.{none};
ghost use Rattle.meaning.specs.SentenceWriting.{SentenceWritten};
ghost use Rattle.sentence.specs.Nodes.{walked};
ghost use Rattle.sentence.specs.Speech.{whole};
ghost use Rattle.sentence.specs.Answers.{code_of, place_of, count_of, Finished, Judged};

use crate::nodes::{Nodes, note};
use crate::speech::say;
use crate::walk::first_wrong;
use rules::Table;
use table::check_table;

mod nodes;
mod refusal;
mod speech;
mod walk;

pub use refusal::SentenceRefusal;

// Counts the words of the nodes' tree, then writes them where there is room; answers how many.
fn finish(nodes: Nodes, text: &mut [u16]) -> Result<usize, SentenceRefusal>
    requires { length (whole nodes.table.now nodes.places.now) ≤ 12240 }
    ensures { Finished (whole nodes.entry.table.now nodes.entry.places.now) text.old (code_of result) (place_of result) (count_of result) text.new }
{
    let levels = nodes.places.len();
    let words = say(&nodes, levels, 0, 0, &mut [], 0);
    if text.len() < words {
        return Err(SentenceRefusal::TextRoom(words));
    }
    say(&nodes, levels, 0, 0, text, 0);
    Ok(words)
}

// Walks the nodes, and writes their words where nothing is wrong.
fn judge(nodes: Nodes, text: &mut [u16]) -> Result<usize, SentenceRefusal>
    requires { walked nodes.table.now nodes.places.now ≡ none → length (whole nodes.table.now nodes.places.now) ≤ 12240 }
    ensures { Judged nodes.entry.table.now nodes.entry.places.now text.old (code_of result) (place_of result) (count_of result) text.new }
{
    match first_wrong(nodes) {
        Some(i) => Err(SentenceRefusal::TreeList(i)),
        None => finish(nodes, text),
    }
}

// The sentence writer over a table that was accepted: notes the nodes, and judges them.
fn spoken(table: Table, list: &[u16], text: &mut [u16]) -> Result<usize, SentenceRefusal>
    ensures { SentenceWritten table.entry.bytes.now list.now text.old (code_of result) (place_of result) (count_of result) text.new }
{
    if 255 < list.len() {
        return Err(SentenceRefusal::TreeList(255));
    }
    let mut room = [0usize; 255];
    let places = &mut room[..list.len()];
    note(table, list, places);
    let nodes = Nodes {
        table: table.bytes,
        places,
    };
    judge(nodes, text)
}

// The sentence writer: checks the table, then the list, then the text's room; writes the words only where all is well, and answers how many.
pub fn sentence(table: &[u8], list: &[u16], text: &mut [u16]) -> Result<usize, SentenceRefusal>
    ensures { SentenceWritten table.now list.now text.old (code_of result) (place_of result) (count_of result) text.new }
{
    check_table(table)?;
    spoken(Table { bytes: table }, list, text)
}
