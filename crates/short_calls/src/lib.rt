// The calls that move a record to the short form and back: what is read and answered.
#![tactic(auto)]

ghost use Rattle.std.specs.Prelude.{◌++◌};
ghost use Rattle.record.specs.Curve.{curve_stages};
ghost use Rattle.classes.specs.Found.{Found};
ghost use Rattle.short.specs.ShortCall.{short_of, IsLong, Shorten, Lengthen};

use basis::Divisor;
use refusal::Refusal;

// The short form of a divisor record.
pub fn shorten(curve: &[u8], divisor: &[u8], out: &mut [u8]) -> i32
    ensures { Shorten curve.now divisor.now out.old result out.new }
{
    match classes::of_one(curve, divisor, |g, x| (g.p, x)) {
        Ok(_) if out.len() < reader::ROOM => reply::refusal(Refusal::Room),
        Ok((p, x)) => short_writer::write_short(p, x, out) as i32,
        Err(cause) => reply::refusal(cause),
    }
}

// The divisor for which a short record stands, on a curve: accepted or refused.
fn read_long(curve: &[u8], short: &[u8]) -> Result<Divisor, Refusal>
    ensures { Found curve.now (curve_stages curve.now ++ short_of curve.now short.now) (IsLong curve.now short.now) result }
{
    let g = ground::of(reader::read_curve(curve)?);
    short_reader::read_short(g, short)
}

// The divisor record for which a short one stands.
pub fn lengthen(curve: &[u8], short: &[u8], out: &mut [u8]) -> i32
    ensures { Lengthen curve.now short.now out.old result out.new }
{
    reply::written(read_long(curve, short), out)
}
