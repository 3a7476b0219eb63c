// The order of a lent chart's records.
ghost use Rattle.std.specs.Prelude.{◌≡◌, ◌<◌};
ghost use Rattle.meaning.specs.Chart.{Before};
ghost use Rattle.meaning.specs.TreeWriting.{stated_at};
ghost use Rattle.phrase.specs.Phrase.{Decides};
ghost use Rattle.lent.specs.Lent.{After};

use crate::records::Record;

impl Record<'_> {
    // Whether the record's item comes before that of another in chart order: by its category, then by its range numbers.
    fn comes_before(self, other: Record) -> bool
        ensures { Decides (Before (stated_at self.entry.chart.now self.entry.at).item (stated_at other.entry.chart.now other.entry.at).item) result }
    {
        let (a, b) = (self.stated(), other.stated());
        let (p, q) = (a.ends, b.ends);
        (a.category, p) < (b.category, q)
    }

    // Whether the record is after its predecessor.
    pub(crate) fn is_ordered(self) -> bool
        ensures { Decides (After self.entry.chart.now self.entry.at) result }
    {
        let last = Record {
            chart: self.chart,
            at: self.at.saturating_sub(1),
        };
        self.at == 0 || last.comes_before(self)
    }
}
