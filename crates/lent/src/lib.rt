// The check of a lent chart: whether it has too many records, and its first bad one.
#![tactic(auto)]

mod order;
mod records;
mod ways;

ghost use Rattle.std.specs.Prelude.{◌≡◌, ◌+◌, ◌*◌, ◌≤◌, length};
ghost use Rattle.meaning.specs.Decode.{grammar_of};
ghost use Rattle.meaning.specs.TreeWriting.{Sound};
ghost use Rattle.phrase.specs.Phrase.{Decides};
ghost use Rattle.lent.specs.Lent.{Checked};

use crate::records::Record;
use rules::{Table, find_rule};

// What is wrong with a lent chart: it has too many records, or the first bad one.
#[derive(Clone, Copy, PartialEq, Eq, Debug)]
pub enum ChartFault {
    Many,
    Bad(usize),
}

// The most records that a chart may have.
const MOST: usize = 2000;

// Whether a record of a lent chart is sound among the first count.
fn is_sound(table: Table, words: &[u16], x: Record, count: usize) -> bool
    requires { 12 * x.at + 12 ≤ length x.chart.now }
    ensures { Decides (Sound (grammar_of table.entry.bytes.now) words.now x.entry.chart.now count x.entry.at) result }
{
    if !x.is_ordered() {
        return false;
    }
    let Some(rule) = find_rule(table, x.number(1)) else {
        return false;
    };
    x.is_way(rule, words, count)
}

// Whether the first count records of a lent chart are sound, and none too many.
// Kept: here and above the count stands beside the chart, as the C call `mcg_tree` lends it.
pub fn check_chart(
    table: Table,
    words: &[u16],
    chart: &[u16],
    count: usize,
) -> Result<(), ChartFault>
    ensures { Checked table.entry.bytes.now words.now chart.now count result }
{
    if MOST < count || chart.len() / 12 < count {
        return Err(ChartFault::Many);
    }
    for i in 0..count {
        let record = Record { chart, at: i };
        if !is_sound(table, words, record, count) {
            return Err(ChartFault::Bad(i));
        }
    }
    Ok(())
}
