// Sums and negatives of divisors by value, on the ground of a curve.
#![tactic(auto)]

ghost use Rattle.group.specs.Contract.{NegativeAsked, NegativeOf, SumAsked, SumOf, ByFormulasOf, TriedSumOf, ProductStarOf, ZeroClass};

use basis::Divisor;
use ground::Ground;
use kind::Kind;

// I*, for the ideal I of a.
pub fn negative(g: Ground, a: Divisor) -> Divisor
    requires { NegativeAsked g a }
    ensures { NegativeOf g a result }
{
    let t = basis::triple_of(a);
    star::star(g, &t)
}

// The sum of two divisors, by formulas or by the product of the ideals.
#[derive(Clone, Copy)]
pub enum SumBy {
    Formulas(Divisor),
    Product(Divisor),
}

// The sum by formulas, if these serve: they are tried for two divisors of kind 31.
pub fn by_formulas(g: Ground, a: Divisor, b: Divisor) -> Option<Divisor>
    requires { SumAsked g a b }
    ensures { ByFormulasOf g a b result }
{
    if a.kind != Kind::K31 {
        return None;
    }
    if b.kind != Kind::K31 {
        return None;
    }
    usual::sum_tried(g, a, b)
}

// The reduced ideal of the product of the ideals of a and b, and whether it is by formulas: it is by these if they serve, and else by the product.
pub fn tried(g: Ground, a: Divisor, b: Divisor) -> SumBy
    requires { SumAsked g a b }
    ensures { TriedSumOf g a b result }
{
    match by_formulas(g, a, b) {
        Some(s) => SumBy::Formulas(s),
        None => SumBy::Product(by_product(g, a, b)),
    }
}

// The reduced ideal of the product of the ideals of a and b.
pub fn sum(g: Ground, a: Divisor, b: Divisor) -> Divisor
    requires { SumAsked g a b }
    ensures { SumOf g a b result }
{
    match tried(g, a, b) {
        SumBy::Formulas(s) => s,
        SumBy::Product(s) => s,
    }
}

// The same by the product of the ideals. With the zero class the other one is the sum.
pub fn by_product(g: Ground, a: Divisor, b: Divisor) -> Divisor
    requires { SumAsked g a b }
    ensures { SumOf g a b result }
{
    if a.kind == Kind::Zero {
        return b;
    }
    if b.kind == Kind::Zero {
        return a;
    }
    let s = product_star(g, a, b);
    negative(g, s)
}

// J*, for the product J of the ideals of a and b.
fn product_star(g: Ground, a: Divisor, b: Divisor) -> Divisor
    requires { SumAsked g a b }
    ensures { ProductStarOf g a b result }
{
    let u = basis::triple_of(a);
    let v = basis::triple_of(b);
    let t = product::product(g.p, &g.cube, &u, &v);
    star::star(g, &t)
}

// The zero class.
pub fn zero_class() -> Divisor
    ensures { ZeroClass result }
{
    basis::zero_class()
}
