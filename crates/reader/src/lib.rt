// The reader: all true items of a sentence as a chart, and whether the goal is one of them.
#![tactic(auto)]

ghost use Rattle.meaning.specs.Reading.{Read};
ghost use Rattle.reader.specs.Answers.{code_of, place_of, count_of, Answered, Reading as Asked};

use crate::charting::write_chart;
use crate::goal::yes_or_no;
use crate::room::room_of;
use input::{check_input, read_words};
use rules::{Table, order_rules};
use search::search;

mod answer;
mod charting;
mod goal;
mod room;

pub use answer::{ReadRefusal, Reading};

// Finds the items, and writes the chart and looks for the goal unless there are more of them than room.
fn sought(
    table: Table,
    words: &[u16],
    room: usize,
    chart: &mut [u16],
) -> Result<Reading, ReadRefusal>
    requires { Asked table.bytes.now words.now room chart.old }
    ensures { Answered table.entry.bytes.now words.now room chart.old (code_of result) (place_of result) (count_of result) chart.new }
{
    let mut known = [0u64; 2000];
    let found = search(table, words, &mut known, room);
    // Every number is 0 where the room is too small, too, so this stands before the refusal.
    chart.fill(0);
    let Some(count) = found else {
        return Err(ReadRefusal::Full(room));
    };
    let known = &known[..count];
    let mut order = [0u16; 256];
    let rules = order_rules(table, &mut order);
    write_chart(table, words, &order[..rules], known, chart);
    Ok(yes_or_no(table, words.len(), known))
}

// The reader: checks the table, then the words, then finds all true items and writes the chart; every number after it is 0.
pub fn read(
    table: &[u8],
    words: &[u8],
    allowance: usize,
    chart: &mut [u16],
) -> Result<Reading, ReadRefusal>
    ensures { Read table.now words.now allowance chart.old (code_of result) (place_of result) (count_of result) chart.new }
{
    check_input(table, words)?;
    let table = Table { bytes: table };
    let room = room_of(allowance, chart.len());
    let mut space = [0u16; 64];
    let numbers = &mut space[..words.len() / 2];
    read_words(words, numbers);
    sought(table, numbers, room, chart)
}
