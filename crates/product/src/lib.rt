// The product of the spans of two triples.
#![tactic(auto)]

ghost use Rattle.product.specs.Contract.{ProductAsked, Multiplied, PutAsked, ProductsPut};

use triple::Triple;

// The triple of the product of two triples' spans. The products with the second triple's member of class 0 come first: they are
// monic and fill the three classes.
pub fn product(p: u32, cube: &[u32; 26], a: &Triple, b: &Triple) -> Triple
    requires { ProductAsked p cube.now a.now.rows a.now.degrees b.now.rows b.now.degrees }
    ensures { Multiplied p cube.now a.now.rows b.now.rows result.rows result.degrees }
{
    let mut t = Triple::empty();
    for j in 0..3 {
        let top = b.degrees[j] + 1;
        let ys = multiplication::y_multiples(p, cube, &b.rows[j], top);
        insert_products(p, a, &ys, top, &mut t);
    }
    t
}

// The products of the members of a with one element, of which ys are the y-multiples, are put into the triple t.
pub fn insert_products(p: u32, a: &Triple, ys: &[[u32; 26]; 3], top: usize, t: &mut Triple)
    requires { PutAsked p a.now.rows a.now.degrees ys.now top t.old.rows t.old.degrees }
    ensures { ProductsPut p a.now.rows ys.now t.old.rows t.new.rows t.new.degrees }
{
    for i in 0..3 {
        let e = a.degrees[i];
        let mut v = terms::times(p, &a.rows[i], e + 1, ys, top);
        t.insert(p, &mut v, e + top);
    }
}
