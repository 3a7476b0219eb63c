// What the programs share: reading a file, printing numbers and the records of a chart, and listing what the reader answers.
#![tactic(auto)]

ghost use Rattle.std.specs.Prelude.{◌≡◌, ◌+◌, ◌*◌, ◌<◌, ◌≤◌, length, get_or, replicate};
ghost use Rattle.programs.specs.Counts.{IsPrefixLen};

use board::mcg_read;
use std::fs::File;
use std::io;
use std::io::Read;
use std::rt::Files;

// A chart slice of 2,000 records.
pub fn empty_chart() -> [u16; 24000]
    ensures room { 24000 ≡ length result }
    ensures zeros { result ≡ replicate 24000 0 }
{
    [0; 24000]
}

// Reads an open file, as far as there is room, and answers how many bytes came; 0 if it can't be read.
// Kept: a file that can't be read counts as empty, and what could not fail, here and in `read_file`, still can't.
pub fn read_open<F: Read>(file: &mut F, bytes: &mut [u8]) -> usize
    ensures { IsPrefixLen result bytes.new }
{
    let mut n = 0;
    // Kept: the step is what a read gave, and no index.
    while n < bytes.len() {
        match file.read(&mut bytes[n..]) {
            Err(_) => return 0,
            Ok(0) => break,
            Ok(more) => n += more,
        }
    }
    n
}

// Reads a file by its name, likewise. One that can't be opened counts as empty too.
pub fn read_file<R: Files>(rt: &R, name: &[u8], bytes: &mut [u8]) -> usize
    ensures { IsPrefixLen result bytes.new }
{
    let Ok(path) = str::from_utf8(name) else {
        return 0;
    };
    let Ok(mut file) = File::open(rt, path) else {
        return 0;
    };
    read_open(&mut file, bytes)
}

// Prints bytes as they are.
pub fn say(rt: &impl Print, text: &[u8]) -> io::Result<()> {
    rt.write_all(text)
}

// Prints a number, and what stands after it.
pub fn print(rt: &impl Print, n: u64, after: u8) -> io::Result<()> {
    rt.print(n)?;
    say(rt, &[after])
}

// What stands after a number of a line: a space, or the line's end after the last.
fn ended(next: usize, all: usize) -> u8 {
    if next < all { b' ' } else { b'\n' }
}

// Prints the first numbers of a line of so many.
// Kept: one number after another, since the line is as long as what is lent, and there is no heap to make it in.
fn print_first(rt: &impl Print, numbers: &[u16], all: usize) -> io::Result<()> {
    for (at, number) in numbers.iter().enumerate() {
        print(rt, u64::from(*number), ended(at + 1, all))?;
    }
    Ok(())
}

// Prints numbers, a line.
pub fn print_numbers(rt: &impl Print, numbers: &[u16]) -> io::Result<()> {
    print_first(rt, numbers, numbers.len())
}

// The height of the record at a place of the chart; 0 past its end, and past 2,000 records.
// Kept: 0 there, as the clause `beyond` says; what could not fail still can't.
pub fn height_at(chart: &[u16], place: u64) -> u64
    ensures record_height { place < 2000 → result ≡ get_or chart.now (12 * place + 2) 0 }
    ensures beyond { 2000 ≤ place → result ≡ 0 }
{
    if 2000 <= place {
        return 0;
    }
    chart
        .get(12 * place as usize + 2)
        .map_or(0, |height| u64::from(*height))
}

// Prints the three numbers of an answer, a line.
// Kept: three numbers and what stands after each, since one write for the line would leave another part of it where the output is full.
pub fn print_answer(rt: &impl Print, answer: &[u64; 3]) -> io::Result<()> {
    print(rt, answer[0], b' ')?;
    print(rt, answer[1], b' ')?;
    print(rt, answer[2], b'\n')
}

// Prints the first records of a chart, a line for each; the line of one that the chart's end cuts is not ended.
pub fn print_records(rt: &impl Print, chart: &[u16], count: u64) -> io::Result<()> {
    for record in chart.chunks(12).take(count as usize) {
        print_first(rt, record, 12)?;
    }
    Ok(())
}

// Reads the words by the table, with allowance 0, and prints code, place and count, then each record.
pub fn list(rt: &impl Print, table: &[u8], words: &[u8]) -> io::Result<()> {
    let mut chart = empty_chart();
    let mut answer = [0u64; 3];
    mcg_read(table, words, 0, &mut chart, &mut answer);
    print_answer(rt, &answer)?;
    print_records(rt, &chart, answer[2])
}
