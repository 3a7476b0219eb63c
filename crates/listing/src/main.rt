// The listing program: reads the table from board.mcg and words from standard input, and prints the reader's answer and the chart.
#![tactic(auto)]

use programs::{list, read_file, read_open};
use std::io;

// A file that can't be opened or read counts as empty. No valid table, and no sentence, is longer than its buffer here.
fn main(rt: HostRuntime) -> io::Result<()> {
    let mut table = [0u8; 65536];
    let t = read_file(&rt, b"board.mcg", &mut table);
    let mut words = [0u8; 4096];
    let w = read_open(&mut rt.stdin(), &mut words);
    list(&rt, &table[..t], &words[..w])
}
