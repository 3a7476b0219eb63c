// The static library: the calls of `board` under C names, each with the contract that it has there.
// Kept beside `board`: C needs them, and no crate can stand on a static library.
#![tactic(auto)]

ghost use Rattle.std.specs.Prelude.{get_or};
ghost use Rattle.meaning.specs.Reading.{Read};
ghost use Rattle.meaning.specs.TreeWriting.{TreeWritten};
ghost use Rattle.meaning.specs.SentenceWriting.{SentenceWritten};

// The reader.
#[unsafe(no_mangle)]
pub extern "C" fn mcg_read(
    table: &[u8],
    words: &[u8],
    allowance: usize,
    chart: &mut [u16],
    answer: &mut [u64; 3],
)
    ensures { Read table.now words.now allowance chart.old (get_or answer.new 0 0) (get_or answer.new 1 0) (get_or answer.new 2 0) chart.new }
{
    board::mcg_read(table, words, allowance, chart, answer);
}

// The tree writer.
#[unsafe(no_mangle)]
pub extern "C" fn mcg_tree(
    table: &[u8],
    words: &[u8],
    chart: &[u16],
    count: usize,
    root: usize,
    list: &mut [u16],
    answer: &mut [u64; 3],
)
    ensures { TreeWritten table.now words.now chart.now count root list.old (get_or answer.new 0 0) (get_or answer.new 1 0) (get_or answer.new 2 0) list.new }
{
    board::mcg_tree(table, words, chart, count, root, list, answer);
}

// The sentence writer.
#[unsafe(no_mangle)]
pub extern "C" fn mcg_sentence(table: &[u8], list: &[u16], text: &mut [u16], answer: &mut [u64; 3])
    ensures { SentenceWritten table.now list.now text.old (get_or answer.new 0 0) (get_or answer.new 1 0) (get_or answer.new 2 0) text.new }
{
    board::mcg_sentence(table, list, text, answer);
}
