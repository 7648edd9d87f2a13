// The table of normal monomials: for each pole number n up to 25 the normal monomial x^i·y^j of that pole number, or none at a gap. It is the
// table of crates/curve/specs/Table.antt.

ghost use Rattle.std.specs.Prelude.{◌<◌};
ghost use Rattle.vector.specs.Vector.{width};
ghost use Rattle.terms.specs.Monomial.{MonomialAt};

// x^i·y^j, by its power of y, which is j, and the pole number of its power of x, which is 3·i.
#[derive(Clone, Copy)]
pub struct Monomial {
    pub power: usize,
    pub pole: usize,
}

static MONOMIALS: [Option<Monomial>; 26] = [
    Some(Monomial { power: 0, pole: 0 }), // 0: 1
    None, // 1: gap
    None, // 2: gap
    Some(Monomial { power: 0, pole: 3 }), // 3: x
    Some(Monomial { power: 1, pole: 0 }), // 4: y
    None, // 5: gap
    Some(Monomial { power: 0, pole: 6 }), // 6: x²
    Some(Monomial { power: 1, pole: 3 }), // 7: xy
    Some(Monomial { power: 2, pole: 0 }), // 8: y²
    Some(Monomial { power: 0, pole: 9 }), // 9: x³
    Some(Monomial { power: 1, pole: 6 }), // 10: x²y
    Some(Monomial { power: 2, pole: 3 }), // 11: xy²
    Some(Monomial { power: 0, pole: 12 }), // 12: x⁴
    Some(Monomial { power: 1, pole: 9 }), // 13: x³y
    Some(Monomial { power: 2, pole: 6 }), // 14: x²y²
    Some(Monomial { power: 0, pole: 15 }), // 15: x⁵
    Some(Monomial { power: 1, pole: 12 }), // 16: x⁴y
    Some(Monomial { power: 2, pole: 9 }), // 17: x³y²
    Some(Monomial { power: 0, pole: 18 }), // 18: x⁶
    Some(Monomial { power: 1, pole: 15 }), // 19: x⁵y
    Some(Monomial { power: 2, pole: 12 }), // 20: x⁴y²
    Some(Monomial { power: 0, pole: 21 }), // 21: x⁷
    Some(Monomial { power: 1, pole: 18 }), // 22: x⁶y
    Some(Monomial { power: 2, pole: 15 }), // 23: x⁵y²
    Some(Monomial { power: 0, pole: 24 }), // 24: x⁸
    Some(Monomial { power: 1, pole: 21 }), // 25: x⁷y
];

impl Monomial {
    // The normal monomial of pole number n; none at a gap.
    pub fn at(n: usize) -> Option<Monomial>
        requires { n < width }
        ensures { MonomialAt n result }
    {
        MONOMIALS[n]
    }
}
