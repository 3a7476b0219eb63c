// A record of a lent chart: its numbers, and the items that it and its daughters state.
ghost use Rattle.std.specs.Prelude.{◌≡◌, ◌+◌, ◌<◌};
ghost use Rattle.meaning.specs.TreeWriting.{stated_at};
ghost use Rattle.lent.specs.Lent.{known_of, knowns_of, number_at, daughters_at};

use phrase::{Daughters, Item};
use std::array;

// A record of a lent chart, by its number from 0.
#[derive(Clone, Copy)]
pub(crate) struct Record<'a> {
    pub chart: &'a [u16],
    pub at: usize,
    ghost small: { at < 65536 },
}

impl Record<'_> {
    // Number k of the record, from 0; 0 past the chart's end.
    // Kept: 0 there is what `stated_at` reads, which may not change.
    pub(crate) fn number(self, k: usize) -> u16
        requires { k < 12 }
        ensures { result ≡ number_at self.entry.chart.now self.entry.at k }
    {
        self.chart.get(12 * self.at + k).copied().unwrap_or(0)
    }

    // The item that the record states, with its height.
    pub(crate) fn stated(self) -> Item
        ensures { known_of result ≡ stated_at self.entry.chart.now self.entry.at }
    {
        Item {
            category: self.number(0),
            height: self.number(2),
            ends: array::from_fn(|k| self.number(3 + k)),
        }
    }

    // The item that is stated at place k of the record, from 0.
    fn daughter(self, k: usize) -> Item
        requires { k < 3 }
        ensures { known_of result ≡ stated_at self.entry.chart.now (number_at self.entry.chart.now self.entry.at (9 + k)) }
    {
        let place = Record {
            chart: self.chart,
            at: usize::from(self.number(9 + k)),
        };
        place.stated()
    }

    // The items that are stated at the first rank places of the record.
    pub(crate) fn daughters(self, rank: usize) -> Daughters
        ensures { knowns_of result ≡ daughters_at self.entry.chart.now self.entry.at rank }
    {
        Daughters {
            count: rank,
            one: self.daughter(0),
            two: self.daughter(1),
            three: self.daughter(2),
        }
    }
}
