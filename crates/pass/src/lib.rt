// One pass over a list: the sum and the tallies of its records by value.
#![tactic(auto)]

ghost use Rattle.std.specs.Prelude.{[]};
ghost use Rattle.group.specs.Contract.{ZeroClass};
ghost use Rattle.calls.specs.Call.{list_of};
ghost use Rattle.classes.specs.Found.{Curved, OnCurves};
ghost use Rattle.tallies.specs.Tallied.{TalliesOf};
ghost use Rattle.pass.specs.Found.{WithAsked, WithNext, PassFound};

use basis::Divisor;
use ground::Ground;
use refusal::Refusal;
use tallies::Tallies;

// The sum and the tallies of the records of a list.
#[derive(Clone, Copy)]
pub struct Pass {
    pub sum: Divisor,
    pub tallies: Tallies,
}

impl Pass {
    // The pass over no record.
    fn none() -> Pass
        ensures sum { ZeroClass result.sum }
        ensures tallies { TalliesOf [] result.tallies }
    {
        Pass {
            sum: group::zero_class(),
            tallies: tallies::no_records(),
        }
    }

    // The pass over one record more, that of x.
    fn with(self, g: Ground, x: Divisor) -> Pass
        requires { WithAsked g self x }
        ensures { WithNext g self x result }
    {
        Pass {
            sum: group::sum(g, self.sum, x),
            tallies: tallies::add(self.tallies, Ok(x)),
        }
    }
}

// The sum and the tallies of the records of a list of any length: one that is too long is refused first.
pub fn pass_on(g: Ground, list: &[u8]) -> Result<Pass, Refusal>
    requires { Curved g }
    ensures { OnCurves g (λ c. PassFound c (list_of c list.now) list.now result) }
{
    lists::fold_records(
        g,
        list,
        Pass::none(),
        |p: Pass, x: Divisor| -> Pass
            requires { WithAsked g p x }
            ensures { WithNext g p x result }
        { p.with(g, x) },
    )
}
