// What is made of divisors in bytes by value: the curve is read first, then the divisors in document 01's order, and the first cause of refusal
// decides. The multiple of a divisor by value.
#![tactic(auto)]

ghost use Rattle.group.specs.Contract.{NegativeAsked};
ghost use Rattle.reader.specs.Reading.{On, GivenOn};
ghost use Rattle.classes.specs.Found.{OnCurves, MultipleMade};
ghost use Rattle.classes.specs.Made.{OneMade, TwoMade};

use basis::Divisor;
use ground::Ground;
use refusal::Refusal;
use whole::Whole;

// What is made of a divisor on a curve.
pub fn of_one<T, F: FnOnce(Ground, Divisor) -> T>(
    curve: &[u8],
    a: &[u8],
    make: F,
) -> Result<T, Refusal>
    requires { (g : Ground) (x : Divisor) → On curve.now g → GivenOn curve.now a.now x → F.pre make g x }
    ensures { OneMade curve.now a.now (F.post make) result }
{
    let g = ground::of(reader::read_curve(curve)?);
    let x = reader::read_divisor(g, a)?;
    Ok(make(g, x))
}

// What is made of two divisors on a curve.
pub fn of_two<T, F: FnOnce(Ground, Divisor, Divisor) -> T>(
    curve: &[u8],
    a: &[u8],
    b: &[u8],
    make: F,
) -> Result<T, Refusal>
    requires { (g : Ground) (x y : Divisor) → On curve.now g → GivenOn curve.now a.now x → GivenOn curve.now b.now y → F.pre make g x y }
    ensures { TwoMade curve.now a.now b.now (F.post make) result }
{
    let g = ground::of(reader::read_curve(curve)?);
    let (x, y) = reader::read_two(g, a, b)?;
    Ok(make(g, x, y))
}

// The multiple of a divisor by value by n.
pub fn multiple_of(g: Ground, x: Divisor, n: i64) -> Divisor
    requires { NegativeAsked g x }
    ensures { OnCurves g (λ c. MultipleMade c x n result) }
{
    let size = whole::size_of(n);
    match size {
        Whole::Up(m) => multiples::multiple(g, x, m),
        Whole::Down(m) => {
            let r = multiples::multiple(g, x, m);
            group::negative(g, r)
        }
    }
}
