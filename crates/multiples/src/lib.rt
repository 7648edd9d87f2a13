// Multiples of divisors by value, on the ground of a curve, by doubling and adding.
#![tactic(auto)]

ghost use Rattle.group.specs.Contract.{NegativeAsked};
ghost use Rattle.multiples.specs.Copies.{MultipleOf};

use basis::Divisor;
use ground::Ground;

// The multiple of a by m, by doubling and adding: r + n·b stays the multiple, and n halves.
pub fn multiple(g: Ground, a: Divisor, m: u64) -> Divisor
    requires { NegativeAsked g a }
    ensures { MultipleOf g a m result }
{
    let mut r = group::zero_class();
    let mut b = a;
    let mut n = m;
    while 0 < n {
        if n % 2 == 1 {
            let s = group::sum(g, r, b);
            r = s;
        }
        n = n / 2;
        if 0 < n {
            let c = group::sum(g, b, b);
            b = c;
        }
    }
    r
}
