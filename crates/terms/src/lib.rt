// Products of vectors, term by term along the table of normal monomials.
#![tactic(auto)]

pub mod normal;

ghost use Rattle.terms.specs.Contract.{TimesAsked, Times};

use crate::normal::Monomial;

// b·g for b below e, from the vectors g, y·g and y²·g, the first of them below top.
pub fn times(p: u32, b: &[u32; 26], e: usize, ys: &[[u32; 26]; 3], top: usize) -> [u32; 26]
    requires { TimesAsked p b.now e ys.now top }
    ensures { Times p b.now e ys.now top result }
{
    let mut out = [0u32; 26];
    for n in 0..e {
        if let Some(m) = Monomial::at(n) {
            let j = m.power;
            vector::axpy(p, &mut out, b[n], &ys[j], m.pole, top + 4 * j);
        }
    }
    out
}
