// The two calls on points, for programs in Rattle: from points to a class and back. Crate point, specs/PointCall.antt, says what they answer.
#![tactic(auto)]

ghost use Rattle.std.specs.Prelude.{map, ◌∷◌};
ghost use Rattle.point.specs.Point.{point_record};
ghost use Rattle.point.specs.PointCall.{pairs, numbers_stage, pairs_stages, PointsSum, PointsOf};
ghost use Rattle.calls.specs.Class.{IsListSum};
ghost use Rattle.classes.specs.Found.{Curved, OnCurves, Found};
ghost use Rattle.points.specs.Contract.{PointsOn, PointsFound};

use basis::Divisor;
use ground::Ground;
use refusal::Refusal;

// The most numbers: two for each of 4,096 pairs.
const NUMBERS: usize = 8192;

// The largest modulus for which x is scanned.
const SCANNED: u32 = 65521;

// The least length of the slice for points: a divisor has three at most.
const ROOM: usize = 6;

// The sum of the points of a list of numbers, two for each point.
fn total(g: Ground, points: &[u32]) -> Result<Divisor, Refusal>
    requires { Curved g }
    ensures { OnCurves g (λ c. Found c (pairs_stages c (pairs points.now)) (IsListSum c (map (point_record c) (pairs points.now))) result) }
{
    let mut sum = group::zero_class();
    let mut left = points;
    while let [a, b, rest @ ..] = left {
        let x = pair::read_pair(g, *a, *b)?;
        sum = group::sum(g, sum, x);
        left = rest;
    }
    Ok(sum)
}

// The sum of the points; 14 for an odd count of numbers or too many of them.
fn sum_on(g: Ground, points: &[u32]) -> Result<Divisor, Refusal>
    requires { Curved g }
    ensures { OnCurves g (λ c. Found c (numbers_stage points.now ∷ pairs_stages c (pairs points.now)) (IsListSum c (map (point_record c) (pairs points.now))) result) }
{
    if points.len() % 2 != 0 || points.len() > NUMBERS {
        return Err(Refusal::Points);
    }
    total(g, points)
}

// The sum of the kind 11 records of pairs of coordinates.
pub fn points_sum(curve: &[u8], points: &[u32], out: &mut [u8]) -> i32
    ensures { PointsSum curve.now points.now out.old result out.new }
{
    reply::written(reader::on_curve(curve, |g| sum_on(g, points)), out)
}

// The points of a divisor on the ground of a curve, put into the slice. Returns how many pairs there are.
fn points_on(g: Ground, divisor: &[u8], out: &mut [u32]) -> Result<usize, Refusal>
    requires { Curved g }
    ensures { OnCurves g (λ c. PointsOn c divisor.now out.old result out.new) }
{
    let x = reader::read_divisor(g, divisor)?;
    if out.len() < ROOM {
        return Err(Refusal::Room);
    }
    Ok(listing::list_points(g, x, out))
}

// The same, with the curve read first; 14 for a modulus that is too large for the scan.
fn points_found(curve: &[u8], divisor: &[u8], out: &mut [u32]) -> Result<usize, Refusal>
    ensures { PointsFound curve.now divisor.now out.old result out.new }
{
    let e = reader::read_curve(curve)?;
    if e.p > SCANNED {
        return Err(Refusal::Points);
    }
    points_on(ground::of(e), divisor, out)
}

// The points of a divisor that have both coordinates in the field, as pairs, each as often as its multiplicity: by rising first coordinate, then by
// rising second. Returns how many pairs there are.
pub fn points_of(curve: &[u8], divisor: &[u8], out: &mut [u32]) -> i32
    ensures { PointsOf curve.now divisor.now out.old result out.new }
{
    match points_found(curve, divisor, out) {
        Ok(n) => n as i32,
        Err(cause) => reply::refusal(cause),
    }
}
