// The worked cases that are not proved: document 01's, and readings of tables that documents 000, 001 and 004 print. The file stdout
// was written by hand from the documents.
#![tactic(auto)]

ghost use Rattle.std.specs.Prelude.{◌≤◌};
ghost use Rattle.programs.specs.Counts.{IsPrefixLen};

use board::{mcg_read, mcg_sentence};
use programs::{empty_chart, height_at, list, print, print_answer, print_numbers, read_file, say};
use std::io;
use std::rt::Files;

// Reads words by a table, and prints code, place and count; on a yes also the goal's height.
fn reading(rt: &impl Print, table: &[u8], words: &[u8]) -> io::Result<()> {
    let mut chart = empty_chart();
    let mut answer = [0u64; 3];
    mcg_read(table, words, 0, &mut chart, &mut answer);
    print_answer(rt, &answer)?;
    if answer[0] == 0 {
        say(rt, b"height ")?;
        print(rt, height_at(&chart, answer[1]), b'\n')?;
    }
    Ok(())
}

// Reads a sentence of one word, at most 63 times.
fn repeated(rt: &impl Print, table: &[u8], word: u8, count: usize) -> io::Result<()>
    requires { count ≤ 63 }
{
    let mut words = [0u8; 126];
    for low in words.iter_mut().step_by(2) {
        *low = word;
    }
    reading(rt, table, &words[..2 * count])
}

// Reads a table with one byte changed.
fn read_changed(rt: &impl Files, name: &[u8], at: usize, byte: u8, table: &mut [u8]) -> usize
    ensures { IsPrefixLen result table.new }
{
    let n = read_file(rt, name, table);
    if at < table.len() {
        table[at] = byte;
    }
    n
}

// Document 01, 'Worked tables': AMB with 62 and with 63 nines.
fn amb(rt: &(impl Files + Print)) -> io::Result<()> {
    let mut table = [0u8; 4096];
    let n = read_file(rt, b"amb.mcg", &mut table);
    say(rt, b"AMB, 62 nines\n")?;
    repeated(rt, &table[..n], 9, 62)?;
    say(rt, b"AMB, 63 nines\n")?;
    repeated(rt, &table[..n], 9, 63)
}

// Document 01, 'Worked tables': COPY with byte 21 made 1.
fn copy(rt: &(impl Files + Print)) -> io::Result<()> {
    let mut table = [0u8; 4096];
    let n = read_changed(rt, b"copy.mcg", 21, 1, &mut table);
    say(rt, b"COPY, byte 21 made 1\n")?;
    reading(rt, &table[..n], &[7, 0, 7, 0])
}

// Document 000, section 2: the tree c (s (s z)) says aabbcc, and no tree says aabbc.
fn abc(rt: &(impl Files + Print)) -> io::Result<()> {
    let mut table = [0u8; 4096];
    let n = read_file(rt, b"abc.mcg", &mut table);
    say(rt, b"aabbcc\n")?;
    reading(rt, &table[..n], &[1, 0, 1, 0, 2, 0, 2, 0, 3, 0, 3, 0])?;
    say(rt, b"aabbc\n")?;
    reading(rt, &table[..n], &[1, 0, 1, 0, 2, 0, 2, 0, 3, 0])?;
    say(rt, b"c (s (s z))\n")?;
    spelled(rt, &table[..n], &[1, 2, 2, 3])
}

// Prints the sentence writer's answer to a list, and the first six words.
fn spelled(rt: &impl Print, table: &[u8], list: &[u16]) -> io::Result<()> {
    let mut text = [0u16; 6];
    let mut answer = [0u64; 3];
    mcg_sentence(table, list, &mut text, &mut answer);
    print_answer(rt, &answer)?;
    print_numbers(rt, &text)
}

// Document 001, figures 3.1 and 3.2: the passive items of abcd.
fn figure(rt: &(impl Files + Print)) -> io::Result<()> {
    let mut table = [0u8; 4096];
    let n = read_file(rt, b"figure-3-1.mcg", &mut table);
    say(rt, b"figure 3.2, abcd\n")?;
    list(rt, &table[..n], &[1, 0, 2, 0, 3, 0, 4, 0])
}

// Document 004, table 4: as many items as its column of nodes has, for so many words.
fn gxx(rt: &(impl Files + Print)) -> io::Result<()> {
    let mut table = [0u8; 4096];
    let n = read_file(rt, b"gxx.mcg", &mut table);
    say(rt, b"Gxx, 2, 3, 4, 5, 6, 7, 8, 9, 10, 20, 30 words\n")?;
    for count in [2, 3, 4, 5, 6, 7, 8, 9, 10, 20, 30] {
        repeated(rt, &table[..n], 1, count)?;
    }
    Ok(())
}

fn main(rt: HostRuntime) -> io::Result<()> {
    amb(&rt)?;
    copy(&rt)?;
    abc(&rt)?;
    figure(&rt)?;
    gxx(&rt)
}
