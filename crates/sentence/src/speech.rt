// The words of noted nodes, counted and written by one recursion: what is out of the text's room is counted alone.
ghost use Rattle.std.specs.Prelude.{◌≡◌, ◌+◌, ◌≤◌, length, set};
ghost use Rattle.sentence.specs.Speech.{heard, row_place, spelled, below, Near, Close, Spoke};

use crate::nodes::Nodes;
use fields::byte_at;
use rules::{Symbol, symbol_at};

// Where row c of the rule at a place starts.
// Kept: a row past the rule's last one may lie outside the table, so these places are no `Row`s.
fn row_place(table: &[u8], rule: usize, c: usize) -> usize
    requires { (rule ≤ length table.now) × (c ≤ 65535) }
    ensures { (result ≡ row_place table.now rule c) × (result ≤ length table.now + 66400) }
{
    let mut at = rule + 4 + usize::from(byte_at(table, rule + 3));
    for _ in 0..c {
        at = at + 1 + 3 * usize::from(byte_at(table, at));
    }
    at
}

// Writes a word where there is room for it.
fn put(text: &mut [u16], at: usize, word: u16)
    ensures { text.new ≡ set text.old at word }
{
    if at < text.len() {
        text[at] = word;
    }
}

// Writes constituent c of the tree at a node, of at most left levels, from pos on, as far as there is room; answers the place after it.
#[cycle(say_symbol)]
pub(crate) fn say(
    nodes: &Nodes,
    left: usize,
    at: usize,
    c: usize,
    text: &mut [u16],
    pos: usize,
) -> usize
    requires near { Near left at c }
    requires c_bound { pos + length (spelled nodes.now.table.now nodes.now.places.now left at c) ≤ 12240 }
    ensures { Spoke (spelled nodes.now.table.now nodes.now.places.now left at c) text.old pos text.new result }
{
    if left == 0 {
        return pos;
    }
    let row = row_place(nodes.table, nodes.node_at(at), c);
    let mut next = pos;
    for i in 0..usize::from(byte_at(nodes.table, row)) {
        next = symbol(nodes, left - 1, at, row + 1 + 3 * i, text, next);
    }
    next
}

// Writes what the symbol at a place says, in a row of the rule of the node at.
#[cycle(say_symbol)]
fn symbol(
    nodes: &Nodes,
    fewer: usize,
    at: usize,
    place: usize,
    text: &mut [u16],
    pos: usize,
) -> usize
    requires close { Close nodes.now.table.now fewer at place }
    requires place_bound { pos + length (heard nodes.now.table.now (below nodes.now.table.now nodes.now.places.now fewer at) place) ≤ 12240 }
    ensures { Spoke (heard nodes.now.table.now (below nodes.now.table.now nodes.now.places.now fewer at) place) text.old pos text.new result }
{
    match symbol_at(nodes.table, place) {
        Symbol::Word(word) => {
            put(text, pos, word);
            pos + 1
        }
        Symbol::Part(k, c) => say(nodes, fewer, nodes.daughter(at, k), c, text, pos),
    }
}
