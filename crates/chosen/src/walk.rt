// The first function, and its first daughters in chart order, that give an item: nested walks over functions and daughter places, left by a
// label at the first combination that gives the item with the right heights.
ghost use Rattle.chosen.specs.Walk.{Walking, Finds};

use crate::quest::Quest;
use phrase::Item;
use rules::{Rule, Table};

// The place of a function in the order of function numbers, and the places of its daughters.
// Kept: three places, as the chart's record has them.
#[derive(Clone, Copy)]
pub(crate) struct Way {
    pub function: usize,
    pub one: usize,
    pub two: usize,
    pub three: usize,
}

pub(crate) fn walk<'a>(
    table: Table<'a>,
    words: &'a [u16],
    order: &[u16],
    known: &'a [u64],
    goal: Item,
) -> Option<Way>
    requires { Walking table.bytes.now words.now order.now known.now goal }
    ensures { Finds table.entry.bytes.now words.now order.now known.now goal result }
{
    // Kept: document 01 names this form, nested walks left by a label, so what is found is set down before they are left.
    let mut found = None;
    'walk: for (f, place) in order.iter().enumerate() {
        let quest = Quest {
            rule: Rule {
                table: table.bytes,
                at: usize::from(*place),
            },
            words,
            known,
            goal,
        };
        let la = quest.begin();
        let mut a = la.spots.first();
        // Kept: a step leaves the gap between the two parts of the spots out, so here and below it is no count.
        while a < la.spots.hi {
            let lb = quest.onward(la, a);
            let mut b = lb.spots.first();
            while b < lb.spots.hi {
                let lc = quest.onward(lb, b);
                let mut c = lc.spots.first();
                while c < lc.spots.hi {
                    if quest.gives(lc, c) {
                        found = Some(Way {
                            function: f,
                            one: a,
                            two: b,
                            three: c,
                        });
                        break 'walk;
                    }
                    c = lc.spots.next(c);
                }
                b = lb.spots.next(b);
            }
            a = la.spots.next(a);
        }
    }
    found
}
