// The tallies of the records of a list by value: how many there are of each kind, how many are typical, how many in all.
#![tactic(auto)]

ghost use Rattle.std.specs.Prelude.{[], ◌<◌};
ghost use Rattle.tallies.specs.Tallied.{TalliesOf, Bounded, TypicalTest, Added};

use basis::Divisor;
use kind::{Kind, UnknownKind};

// How many records of a list have each of the five kinds, how many are typical, and how many there are.
#[derive(Clone, Copy, Default)]
pub struct Tallies {
    pub n0: u32,
    pub n11: u32,
    pub n21: u32,
    pub n22: u32,
    pub n31: u32,
    pub typical: u32,
    pub total: u32,
}

// The tallies of no record.
pub fn no_records() -> Tallies
    ensures { TalliesOf [] result }
{
    Tallies::default()
}

// Is the record of this divisor typical? Its third number is f2.
fn typical(x: Divisor) -> bool
    ensures { TypicalTest x result }
{
    x.kind == Kind::K31 && x.n2 != 0
}

// The tallies with one record more, that of x. One whose number no kind has counts among all records alone.
pub fn add(t: Tallies, x: Result<Divisor, UnknownKind>) -> Tallies
    requires bounded { Bounded t }
    requires total_bound { t.total < 4294967295 }
    ensures { Added t x result }
{
    let total = t.total + 1;
    match x {
        Ok(x) => Tallies {
            n0: t.n0 + u32::from(x.kind == Kind::Zero),
            n11: t.n11 + u32::from(x.kind == Kind::K11),
            n21: t.n21 + u32::from(x.kind == Kind::K21),
            n22: t.n22 + u32::from(x.kind == Kind::K22),
            n31: t.n31 + u32::from(x.kind == Kind::K31),
            typical: t.typical + u32::from(typical(x)),
            total,
        },
        Err(_) => Tallies { total, ..t },
    }
}
