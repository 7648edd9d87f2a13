// The two comparisons of divisors: whether they have the same bytes, and how many pairs of their words are compared. One walk serves both.
#![tactic(auto)]

ghost use Rattle.calls.specs.Call.{Compare, CompareWords};
ghost use Rattle.comparison.specs.Met.{WalkRead};

use refusal::Refusal;
use words::Walk;

// Reads the curve and the two divisors, and walks over them.
fn walked(curve: &[u8], a: &[u8], b: &[u8]) -> Result<Walk, Refusal>
    ensures { WalkRead curve.now a.now b.now result }
{
    classes::of_two(curve, a, b, |_, _, _| words::compare(a, b))
}

// 1 if two divisors have the same bytes, else 0.
pub fn compare(curve: &[u8], a: &[u8], b: &[u8]) -> i32
    ensures { Compare curve.now a.now b.now result }
{
    match walked(curve, a, b) {
        Ok(walk) => i32::from(walk.same),
        Err(cause) => reply::refusal(cause),
    }
}

// How many pairs of words of two divisors are compared.
pub fn compare_words(curve: &[u8], a: &[u8], b: &[u8]) -> i32
    ensures { CompareWords curve.now a.now b.now result }
{
    match walked(curve, a, b) {
        Ok(walk) => walk.compared as i32,
        Err(cause) => reply::refusal(cause),
    }
}
