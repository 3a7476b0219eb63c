// The tree writer: from a chart that passes the check, the function numbers of the tree at a record, each node before its daughters.
#![tactic(auto)]

ghost use Rattle.meaning.specs.TreeWriting.{TreeWritten};
ghost use Rattle.tree.specs.Answers.{code_of, place_of, count_of, Rooted};

use crate::chart::Chart;
use crate::writing::write;
use input::{check_input, read_words};
use lent::{ChartFault, check_chart};
use rules::Table;

mod answer;
mod chart;
mod writing;

pub use answer::TreeRefusal;

// Writes the root's tree into a space of its own, and from there to the front of out: a refusal writes nothing.
fn write_root(chart: Chart, root: usize, out: &mut [u16]) -> Result<usize, TreeRefusal>
    ensures { Rooted chart.entry.table.bytes.now chart.entry.numbers.now chart.entry.count root out.old (code_of result) (place_of result) (count_of result) out.new }
{
    if chart.count <= root {
        return Err(TreeRefusal::Place(root));
    }
    let mut space = [0u16; 255];
    let space = &mut space[..out.len().min(255)];
    let nodes = write(&chart, root, space, 0).ok_or(TreeRefusal::TreeRoom(space.len()))?;
    out[..nodes].copy_from_slice(&space[..nodes]);
    Ok(nodes)
}

// The tree writer: checks table and words, then the chart, then the root's place, then the room; writes the nodes only where all is well.
pub fn tree(
    table: &[u8],
    words: &[u8],
    chart: &[u16],
    count: usize,
    root: usize,
    out: &mut [u16],
) -> Result<usize, TreeRefusal>
    ensures { TreeWritten table.now words.now chart.now count root out.old (code_of result) (place_of result) (count_of result) out.new }
{
    // Kept: the words are read here as in reader's `read`, since the array that lends them can't leave a function.
    check_input(table, words)?;
    let table = Table { bytes: table };
    let mut space = [0u16; 64];
    let numbers = &mut space[..words.len() / 2];
    read_words(words, numbers);
    match check_chart(table, numbers, chart, count) {
        Err(ChartFault::Many) => Err(TreeRefusal::Chart(0)),
        Err(ChartFault::Bad(i)) => Err(TreeRefusal::Chart(i)),
        Ok(()) => {
            let chart = Chart {
                table,
                numbers: chart,
                count,
            };
            write_root(chart, root, out)
        }
    }
}
