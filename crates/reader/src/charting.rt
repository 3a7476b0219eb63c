// The chart's records: for each item its numbers, its chosen function and its daughters' places.
ghost use Rattle.std.specs.Prelude.{◌≡◌, ◌++◌, ◌+◌, ◌*◌, ◌≤◌, length, take, drop};
ghost use Rattle.reader.specs.Records.{record_of, Whole, Ruled, Written};

use chosen::{Choice, choice_of};
use phrase::Item;
use rules::Table;
use search::unpack;

// Writes the record of an item with its choice from a place on.
fn write_record(chart: &mut [u16], at: usize, x: Item, c: Choice)
    requires { at + 12 ≤ length chart.old }
    ensures { chart.new ≡ take at chart.old ++ record_of x c ++ drop (at + 12) chart.old }
{
    let e = x.ends;
    chart[at..at + 12].copy_from_slice(&[
        x.category, c.function, x.height, e[0], e[1], e[2], e[3], e[4], e[5], c.one, c.two, c.three,
    ]);
}

// Writes the records of all items.
pub(crate) fn write_chart(
    table: Table,
    words: &[u16],
    order: &[u16],
    known: &[u64],
    chart: &mut [u16],
)
    requires { Whole table.bytes.now words.now known.now × Ruled table.bytes.now order.now × (12 * length known.now ≤ length chart.old) }
    ensures { Written table.entry.bytes.now words.now known.now known.now chart.old chart.new }
{
    for (i, code) in known.iter().enumerate() {
        let c = choice_of(table, words, order, known, *code);
        write_record(chart, 12 * i, unpack(*code), c);
    }
}
