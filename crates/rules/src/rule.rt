// An accepted table, a rule of it and a row of a rule: each is the table's bytes with a place, and what is known of them.
ghost use Rattle.std.specs.Prelude.{◌≡◌, ◌+◌, ◌≤◌, ◌<◌, length, get_or};
ghost use Rattle.meaning.specs.Table.{got, byte, number, check_table, category_of, rank_of, dimension_of};
ghost use Rattle.meaning.specs.Decode.{row_end, rule_at};
ghost use Rattle.rules.specs.Walk.{RuleOf};
ghost use Rattle.rules.specs.Index.{RuleOf_prop};

use fields::{byte_at, number_at};

// The bytes of a table that is accepted.
#[derive(Clone, Copy)]
pub struct Table<'a> {
    pub bytes: &'a [u8],
    ghost accepted: { check_table bytes.now ≡ got tt },
}

// A rule: the place where it starts in an accepted table.
#[derive(Clone, Copy)]
pub struct Rule<'a> {
    pub table: &'a [u8],
    pub at: usize,
    ghost of_table: { RuleOf table.now at } by { RuleOf_prop table.now at },
}

// A row: the place where it starts in a table that it lies within.
#[derive(Clone, Copy)]
pub struct Row<'a> {
    pub table: &'a [u8],
    pub at: usize,
    ghost inside: { row_end table.now at ≤ length table.now },
}

impl Rule<'_> {
    // The rule's function number.
    #[inline]
    pub(crate) fn function(self) -> u16
        ensures { result ≡ number self.entry.table.now self.entry.at }
    {
        number_at(self.table, self.at)
    }

    // The category of what the rule makes.
    #[inline]
    pub fn category(self) -> u16
        ensures { (result ≡ category_of self.entry.table.now self.entry.at) × (result < 256) }
    {
        byte_at(self.table, self.at + 2)
    }

    // How many daughters the rule has.
    #[inline]
    pub fn rank(self) -> usize
        ensures { (result ≡ rank_of self.entry.table.now self.entry.at) × (result < 256) }
    {
        usize::from(byte_at(self.table, self.at + 3))
    }

    // The category that the rule wants as daughter k, from 0; 0 where it wants none.
    // Kept: 0 for none, as the definition `categories` and the look-ups beside it have it.
    #[inline]
    pub fn wanted(self, k: usize) -> u16
        ensures { result ≡ get_or (rule_at self.entry.table.now self.entry.at).daughters k 0 }
    {
        if k < self.rank() {
            byte_at(self.table, self.at + 4 + k)
        } else {
            0
        }
    }

    // How many rows the rule has: as many as its category has constituents.
    #[inline]
    pub fn dimension(self) -> usize
        ensures { result ≡ dimension_of self.entry.table.now (category_of self.entry.table.now self.entry.at) }
    {
        usize::from(byte_at(self.table, 8 + usize::from(self.category())))
    }
}

impl Row<'_> {
    // How many symbols the row has.
    #[inline]
    pub fn len(self) -> usize
        ensures { (result ≡ byte self.entry.table.now self.entry.at) × (result < 256) }
    {
        usize::from(byte_at(self.table, self.at))
    }

    // Where the row ends.
    #[inline]
    #[tactic(auto, using(meaning::proofs::Places::row_is))]
    pub fn end(self) -> usize
        ensures { result ≡ row_end self.entry.table.now self.entry.at }
    {
        self.at + 1 + 3 * self.len()
    }
}
