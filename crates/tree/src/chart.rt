// A lent chart that passed its check, with the table that it was checked by.
ghost use Rattle.tree.specs.Writing.{Falling};
ghost use Rattle.tree.specs.Once.{Falling_prop};

use rules::Table;

// The numbers of the first count records, whose heights fall from each to its daughters.
// Kept: the count stands beside the numbers, as the C call `mcg_tree` lends it beside the chart.
#[derive(Clone, Copy)]
pub(crate) struct Chart<'t, 'c> {
    pub(crate) table: Table<'t>,
    pub(crate) numbers: &'c [u16],
    pub(crate) count: usize,
    pub(crate) ghost falling: { Falling table.bytes.now numbers.now count } by { Falling_prop table.bytes.now numbers.now count },
}
