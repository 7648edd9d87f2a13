// The two calls on points, for tests and benchmarks in C. In C a slice is a pointer and its number of elements.
#![tactic(auto)]

ghost use Rattle.point.specs.PointCall.{PointsSum, PointsOf};

// The sum of the kind 11 records of pairs of coordinates.
#[unsafe(no_mangle)]
pub extern "C" fn bench_points_sum(curve: &[u8], points: &[u32], out: &mut [u8]) -> i32
    ensures { PointsSum curve.now points.now out.old result out.new }
{
    points::points_sum(curve, points, out)
}

// The points of a divisor as pairs of coordinates in rising order, each as often as its multiplicity.
#[unsafe(no_mangle)]
pub extern "C" fn bench_points_of(curve: &[u8], divisor: &[u8], out: &mut [u32]) -> i32
    ensures { PointsOf curve.now divisor.now out.old result out.new }
{
    points::points_of(curve, divisor, out)
}
