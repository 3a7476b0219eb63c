// The nodes of a tree list, noted by the places of their rules in the table.
ghost use Rattle.std.specs.Prelude.{◌≡◌, map, ◌≤◌, length, get_or};
ghost use Rattle.sentence.specs.Nodes as spec;
ghost use Rattle.sentence.specs.Nodes.{place_for, Within};

use fields::byte_at;
use rules::{Table, find_rule};

// The noted nodes of a list: the place of each node's rule.
#[derive(Clone, Copy)]
pub(crate) struct Nodes<'a> {
    pub(crate) table: &'a [u8],
    pub(crate) places: &'a [usize],
    ghost within: { Within table.now places.now },
}

impl Nodes<'_> {
    // The place of a node's rule, 0 past the last node.
    // Kept: 0 is what `spelled`, whose meaning stays, reads there.
    pub(crate) fn node_at(self, at: usize) -> usize
        ensures { result ≡ get_or self.entry.places.now at 0 }
    {
        self.places.get(at).copied().unwrap_or(0)
    }

    // Where daughter k of the node at a place stands, both from 0.
    // Kept: a place past the last node where there is none, as `daughter`, whose meaning stays, has it.
    pub(crate) fn daughter(self, at: usize, k: usize) -> usize
        requires { (at ≤ 510) × (k ≤ 65535) }
        ensures { result ≡ spec.daughter self.entry.table.now self.entry.places.now at k }
    {
        let mut left = k;
        for place in at + 1..self.places.len() {
            if left == 0 {
                return place;
            }
            left = left - 1 + usize::from(byte_at(self.table, self.places[place] + 3));
        }
        self.places.len().max(at + 1)
    }
}

// The place of the rule with a function number; 0 where there is none.
// Kept: a noted place is one number, and `place_for` and `Within`, whose meaning stays, have 0 for no rule.
fn place_for(table: Table, function: u16) -> usize
    ensures { result ≡ place_for table.entry.bytes.now function }
{
    find_rule(table, function).map_or(0, |rule| rule.at)
}

// Notes the place of each node's rule.
pub(crate) fn note(table: Table, list: &[u16], places: &mut [usize])
    requires { length places.old ≡ length list.now }
    ensures { places.new ≡ map (place_for table.entry.bytes.now) list.now }
{
    // Kept: by the index, since with `iter_mut().zip(list)`, which was tried, the goal `returns` stays open.
    for (i, &function) in list.iter().enumerate() {
        places[i] = place_for(table, function);
    }
}
