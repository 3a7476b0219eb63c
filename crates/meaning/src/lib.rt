// What the reader and the writers mean: definitions in specs/, the theory over them in proofs/.
// The code of this crate is the one list of the refusals that come before a chart is made.
#![tactic(auto)]

ghost use Rattle.std.specs.Prelude.{◌≡◌};
ghost use Rattle.meaning.specs.Refusals.{code_of, place_of};

// Why a table or a sentence is refused, with the place where it is not plain from the case.
#[derive(Clone, Copy, Debug, PartialEq, Eq)]
pub enum Refusal {
    Short(usize),
    Mark,
    Version,
    Range(usize),
    Category(usize),
    Function(usize),
    Symbol(usize),
    Twice(usize),
    Missing(usize),
    Start(usize),
    Trailing(usize),
    Long,
    Odd(usize),
    ZeroWord(usize),
}

// Document 01's number of a refusal.
pub fn code_of(r: Refusal) -> u64
    ensures { result ≡ code_of r }
{
    match r {
        Refusal::Short(_) => 2,
        Refusal::Mark => 3,
        Refusal::Version => 4,
        Refusal::Range(_) => 5,
        Refusal::Category(_) => 6,
        Refusal::Function(_) => 7,
        Refusal::Symbol(_) => 8,
        Refusal::Twice(_) => 9,
        Refusal::Missing(_) => 10,
        Refusal::Start(_) => 11,
        Refusal::Trailing(_) => 12,
        Refusal::Long => 13,
        Refusal::Odd(_) => 14,
        Refusal::ZeroWord(_) => 15,
    }
}

// Document 01's place of a refusal.
pub fn place_of(r: Refusal) -> usize
    ensures { result ≡ place_of r }
{
    match r {
        Refusal::Short(p)
        | Refusal::Range(p)
        | Refusal::Category(p)
        | Refusal::Function(p)
        | Refusal::Symbol(p)
        | Refusal::Twice(p)
        | Refusal::Missing(p)
        | Refusal::Start(p)
        | Refusal::Trailing(p)
        | Refusal::Odd(p)
        | Refusal::ZeroWord(p) => p,
        Refusal::Mark => 0,
        Refusal::Version => 3,
        Refusal::Long => 64,
    }
}
