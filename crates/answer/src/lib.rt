// Eight of the nine calls of document 01; the comparison is in the crate `comparison`. Each reads the curve, has the work done on its ground, and
// returns what the call is for or minus the number of the first cause of refusal.
#![tactic(auto)]

ghost use Rattle.std.specs.Prelude.{FitsSigned};
ghost use Rattle.std.specs.Int.{w64};
ghost use Rattle.group.specs.Contract.{NegativeAsked, SumAsked, SumOf};
ghost use Rattle.calls.specs.Call.{CheckCurve, CheckDivisor, Sum, Double, Negative, Multiple, ListSum, Count};
ghost use Rattle.classes.specs.Found.{OnCurves, MultipleMade};

use basis::Divisor;
use ground::Ground;

// 1 for an accepted curve.
pub fn check_curve(curve: &[u8]) -> i32
    ensures { CheckCurve curve.now result }
{
    match reader::read_curve(curve) {
        Ok(_) => 1,
        Err(cause) => reply::refusal(cause),
    }
}

// 1 for an accepted divisor on an accepted curve.
pub fn check_divisor(curve: &[u8], divisor: &[u8]) -> i32
    ensures { CheckDivisor curve.now divisor.now result }
{
    match classes::of_one(curve, divisor, |_, _| ()) {
        Ok(()) => 1,
        Err(cause) => reply::refusal(cause),
    }
}

// The sum of two divisors.
pub fn sum(curve: &[u8], a: &[u8], b: &[u8], out: &mut [u8]) -> i32
    ensures { Sum curve.now a.now b.now out.old result out.new }
{
    reply::written(classes::of_two(curve, a, b, group::sum), out)
}

// The sum of a divisor with itself.
pub fn double(curve: &[u8], a: &[u8], out: &mut [u8]) -> i32
    ensures { Double curve.now a.now out.old result out.new }
{
    let doubled = |g: Ground, x: Divisor| -> Divisor
        requires { SumAsked g x x }
        ensures { SumOf g x x result }
    { group::sum(g, x, x) };
    reply::written(classes::of_one(curve, a, doubled), out)
}

// The negative of a divisor.
pub fn negative(curve: &[u8], a: &[u8], out: &mut [u8]) -> i32
    ensures { Negative curve.now a.now out.old result out.new }
{
    reply::written(classes::of_one(curve, a, group::negative), out)
}

// The multiple of a divisor by n.
pub fn multiple(curve: &[u8], a: &[u8], n: i64, out: &mut [u8]) -> i32
    ensures { Multiple curve.now a.now n out.old result out.new }
{
    let multiplied = move |g: Ground, x: Divisor| -> Divisor
        requires asked { NegativeAsked g x }
        requires fits { FitsSigned w64 n }
        ensures { OnCurves g (λ c. MultipleMade c x n result) }
    { classes::multiple_of(g, x, n) };
    reply::written(classes::of_one(curve, a, multiplied), out)
}

// The sum of all divisors of a list.
pub fn list_sum(curve: &[u8], list: &[u8], out: &mut [u8]) -> i32
    ensures { ListSum curve.now list.now out.old result out.new }
{
    reply::written(
        reader::on_curve(curve, |g| lists::list_sum_on(g, list)),
        out,
    )
}

// How many divisors of a list have the kind.
pub fn count(curve: &[u8], list: &[u8], kind: u32) -> i32
    ensures { Count curve.now list.now kind result }
{
    match reader::on_curve(curve, |g| lists::count_on(g, list, kind)) {
        Ok(n) => i32::from(n),
        Err(cause) => reply::refusal(cause),
    }
}
