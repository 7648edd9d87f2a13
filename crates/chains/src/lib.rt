// Longer sums of products modulo p, in which products are added and others taken away, reduced once.
#![tactic(auto)]

ghost use Rattle.field.specs.Residue.{Z, el};
ghost use Rattle.field.specs.Contract.{Is};
ghost use Rattle.chains.specs.Contract.{more_all, less_all, SumAsked};

use barrett::Modulus;

// x and the products of the pairs of `plus`, less those of `minus`, four pairs at most
pub fn sum<const M: usize, const N: usize>(
    modulus: Modulus,
    x: u32,
    plus: [(u32, u32); M],
    minus: [(u32, u32); N],
) -> u32
    requires { SumAsked modulus.p x plus minus }
    ensures { Is modulus.p result (less_all modulus.p (more_all modulus.p (el modulus.p x) plus.entry) minus.entry) }
{
    let mut total = x as u64;
    for (a, b) in plus {
        total = modulus.add_product(total, a, b);
    }
    for (c, d) in minus {
        total = modulus.sub_product(total, c, d);
    }
    if M + N <= 2 {
        modulus.reduce_half(total)
    } else {
        modulus.reduce(total)
    }
}
