// The public calls, as `board_c` hands them to C. Each writes code, place and count of its answer into a lent array of three numbers.
#![tactic(auto)]

ghost use Rattle.std.specs.Prelude.{get_or};
ghost use Rattle.meaning.specs.Reading.{Read};
ghost use Rattle.meaning.specs.TreeWriting.{TreeWritten};
ghost use Rattle.meaning.specs.SentenceWriting.{SentenceWritten};

use crate::numbers::Numbers;

mod numbers;

// The reader.
pub fn mcg_read(
    table: &[u8],
    words: &[u8],
    allowance: usize,
    chart: &mut [u16],
    answer: &mut [u64; 3],
)
    ensures { Read table.now words.now allowance chart.old (get_or answer.new 0 0) (get_or answer.new 1 0) (get_or answer.new 2 0) chart.new }
{
    Numbers::from(reader::read(table, words, allowance, chart)).hand_back(answer);
}

// The tree writer.
pub fn mcg_tree(
    table: &[u8],
    words: &[u8],
    chart: &[u16],
    count: usize,
    root: usize,
    list: &mut [u16],
    answer: &mut [u64; 3],
)
    ensures { TreeWritten table.now words.now chart.now count root list.old (get_or answer.new 0 0) (get_or answer.new 1 0) (get_or answer.new 2 0) list.new }
{
    Numbers::from(tree::tree(table, words, chart, count, root, list)).hand_back(answer);
}

// The sentence writer.
pub fn mcg_sentence(table: &[u8], list: &[u16], text: &mut [u16], answer: &mut [u64; 3])
    ensures { SentenceWritten table.now list.now text.old (get_or answer.new 0 0) (get_or answer.new 1 0) (get_or answer.new 2 0) text.new }
{
    Numbers::from(sentence::sentence(table, list, text)).hand_back(answer);
}
