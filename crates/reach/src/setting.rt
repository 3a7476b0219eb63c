// What a row is run over, from a start.
ghost use Rattle.std.specs.Prelude.{◌<◌};
ghost use Rattle.reach.specs.Reach.{Asked};

use crate::rows::Free;
use phrase::Daughters;

// A sentence, the daughters that are chosen, the categories of those that may be any known ones, the sets of these, as they are lent, and the
// place where the row starts.
#[derive(Clone, Copy)]
pub(crate) struct Setting<'a> {
    pub words: &'a [u16],
    pub chosen: Daughters,
    pub free: Free,
    pub ends: &'a [u64],
    pub start: usize,
    ghost asked: { Asked words.now ends.now free },
    ghost early: { start < 64 },
}
