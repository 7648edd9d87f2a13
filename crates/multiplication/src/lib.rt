// Multiples of a vector v by powers of y: y·v and y²·v, by the vector of y³. Loops end at the degree.
#![tactic(auto)]

ghost use Rattle.multiplication.specs.Contract.{TimesYAsked, TimesY, YMultiplesAsked, YMultiples, ShiftAsked, Shifted};

// y·v for v below top, where cube is y³.
pub fn times_y(p: u32, cube: &[u32; 26], v: &[u32; 26], top: usize) -> [u32; 26]
    requires { TimesYAsked p cube.now v.now top }
    ensures { TimesY p cube.now v.now top result }
{
    let mut out = shift_y(v, top);
    for n in (8..top).step_by(3) {
        vector::axpy(p, &mut out, v[n], cube, n - 8, 13);
    }
    out
}

// v, y·v and y²·v for v below top, where cube is y³.
pub fn y_multiples(p: u32, cube: &[u32; 26], v: &[u32; 26], top: usize) -> [[u32; 26]; 3]
    requires { YMultiplesAsked p cube.now v.now top }
    ensures { YMultiples p cube.now v.now top result }
{
    let a = times_y(p, cube, v, top);
    let b = times_y(p, cube, &a, top + 4);
    [*v, a, b]
}

// The part of y·v that comes from the classes 0 and 1 modulo 3: v[n] at n + 4. For the class 2 the product with y is no normal monomial.
fn shift_y(v: &[u32; 26], top: usize) -> [u32; 26]
    requires { ShiftAsked v.now top }
    ensures { Shifted v.now top result }
{
    let mut out = [0u32; 26];
    for n in 0..top {
        let class = n % 3;
        if class != 2 {
            out[n + 4] = v[n];
        }
    }
    out
}
