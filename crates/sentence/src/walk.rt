// One walk from the left over the noted nodes, with the categories still wanted on a stack.
ghost use Rattle.std.specs.Prelude.{◌≡◌, ◌+◌, ◌≤◌, length};
ghost use Rattle.meaning.specs.Table.{rank_of};
ghost use Rattle.sentence.specs.Nodes.{walked, walked_of, Pushed};

use crate::nodes::Nodes;
use fields::byte_at;

// Puts the categories of a rule's daughters on the stack of those wanted, the first on top.
// Kept: memory is fixed, and `Pushed`, whose meaning stays, speaks of an array and of how many of it count.
fn push(table: &[u8], rule: usize, stack: &mut [u16], wanted: usize) -> usize
    requires { (rule ≤ length table.now) × (rank_of table.now rule ≤ 3) × (wanted + 3 ≤ length stack.old) }
    ensures { Pushed table.now rule wanted stack.old stack.new result }
{
    let rank = usize::from(byte_at(table, rule + 3));
    for k in 0..rank {
        stack[wanted + k] = byte_at(table, rule + 3 + (rank - k));
    }
    wanted + rank
}

// The first node at which something is wrong, or none where the list is one tree. Each node takes the wanted category on top, and puts at
// most three in its place: 255 nodes never want more than 511.
pub(crate) fn first_wrong(nodes: Nodes) -> Option<usize>
    ensures { walked_of result ≡ walked nodes.entry.table.now nodes.entry.places.now }
{
    let mut stack = [0u16; 512];
    stack[0] = byte_at(nodes.table, 6);
    let mut wanted = 1;
    for (i, &rule) in nodes.places.iter().enumerate() {
        if wanted == 0 || rule == 0 || byte_at(nodes.table, rule + 2) != stack[wanted - 1] {
            return Some(i);
        }
        wanted = push(nodes.table, rule, &mut stack, wanted - 1);
    }
    (wanted > 0).then_some(nodes.places.len())
}
