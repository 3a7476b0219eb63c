// Ranges of a sentence: when one is, and how two join.
ghost use Rattle.std.specs.Prelude.{◌≡◌};
ghost use Rattle.meaning.specs.Range as range;
ghost use Rattle.phrase.specs.Row as row;
ghost use Rattle.phrase.specs.Phrase.{range_of, join_of};

// Words from..to, or nothing as 0, 0.
// Kept: 0, 0 and no Option, as document 01 and `none` of crate meaning have the empty range.
#[derive(Clone, Copy, PartialEq, Eq)]
pub struct Range {
    pub from: usize,
    pub to: usize,
}

impl Range {
    // The empty string's range.
    pub const NONE: Range = Range { from: 0, to: 0 };
}

// Whether it is the empty string's range.
fn is_none(p: Range) -> bool
    ensures { result ≡ range.is_none (range_of p) }
{
    p == Range::NONE
}

// The range of p and q side by side: the other where one is empty, both where p ends as q starts.
pub(crate) fn joined(p: Range, q: Range) -> Option<Range>
    ensures { join_of result ≡ range.joined (range_of p) (range_of q) }
{
    if is_none(p) {
        return Some(q);
    }
    if is_none(q) {
        return Some(p);
    }
    if p.to == q.from {
        return Some(Range {
            from: p.from,
            to: q.to,
        });
    }
    None
}

// Whether it is a range of the sentence.
pub fn is_range(words: &[u16], p: Range) -> bool
    ensures { result ≡ row.is_range words.now (range_of p) }
{
    is_none(p) || p.from < p.to && p.to <= words.len()
}
