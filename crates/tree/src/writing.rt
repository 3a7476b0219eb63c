// The recursion from a record of a chart to its daughters: each node is written before its daughters.
ghost use Rattle.std.specs.Prelude.{◌≡◌, ◌<◌};
ghost use Rattle.meaning.specs.Decode.{grammar_of};
ghost use Rattle.meaning.specs.TreeWriting.{nodes};
ghost use Rattle.tree.specs.Writing.{rank, Wrote};

use crate::chart::Chart;
use rules::{Rule, Table, find_rule};

// How many daughters the rule with a function number has; none where the table has no such rule.
fn rank_of(table: Table, function: u16) -> usize
    ensures { result ≡ rank table.entry.bytes.now function }
{
    find_rule(table, function).map_or(0, Rule::rank)
}

// Writes the tree of record `at` from `pos` on, and answers the place after it; none where there is no room for it.
pub(crate) fn write(chart: &Chart, at: usize, out: &mut [u16], pos: usize) -> Option<usize>
    requires { at < chart.now.count }
    ensures { Wrote (nodes (grammar_of chart.now.table.bytes.now) chart.now.numbers.now chart.now.count at) out.old pos out.new result }
{
    if out.len() <= pos {
        return None;
    }
    let function = chart.numbers[12 * at + 1];
    out[pos] = function;
    let mut next = pos + 1;
    let places = 12 * at + 9;
    for daughter in &chart.numbers[places..places + rank_of(chart.table, function)] {
        next = write(chart, usize::from(*daughter), out, next)?;
    }
    Some(next)
}
