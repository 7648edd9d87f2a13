// The calls on the common part of two divisors: the common part, the common multiple, and the sum by the second road. They read the same inputs and
// refuse them alike.
#![tactic(auto)]

ghost use Rattle.calls.specs.Call.{CommonPart, CommonMultiple, Sum};

// The common part of two divisors.
pub fn common_part(curve: &[u8], a: &[u8], b: &[u8], out: &mut [u8]) -> i32
    ensures { CommonPart curve.now a.now b.now out.old result out.new }
{
    reply::written(classes::of_two(curve, a, b, parts::common_part), out)
}

// The reduced form of the common multiple of two divisors.
pub fn common_multiple(curve: &[u8], a: &[u8], b: &[u8], out: &mut [u8]) -> i32
    ensures { CommonMultiple curve.now a.now b.now out.old result out.new }
{
    reply::written(classes::of_two(curve, a, b, parts::common_multiple), out)
}

// The sum of two divisors, by the second road.
pub fn sum_by_parts(curve: &[u8], a: &[u8], b: &[u8], out: &mut [u8]) -> i32
    ensures { Sum curve.now a.now b.now out.old result out.new }
{
    reply::written(classes::of_two(curve, a, b, road::sum), out)
}
