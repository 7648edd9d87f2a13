// Curve and divisor records in bytes: reading, refusing and writing. specs/ says what is accepted and what is refused.
#![tactic(auto)]

ghost use Rattle.std.specs.Prelude.{◌≡◌, ◌≤◌};
ghost use Rattle.algebra.specs.Answers.{Answers};
ghost use Rattle.prime.specs.Prime.{Prime};
ghost use Rattle.nonsingular.specs.Nonsingular.{Nonsingular};
ghost use Rattle.equation.specs.Equation.{curve_of};
ghost use Rattle.ground.specs.Ground.{Grounded, AtGround};
ghost use Rattle.record.specs.Curve.{limit};
ghost use Rattle.form.specs.Contract.{Checked};
ghost use Rattle.reader.specs.Contract.{NonsingularAsked, WriteAsked, WriteAnswer, equation_stages};
ghost use Rattle.reader.specs.Reading.{CurveRead, On, DoneOn, DivisorRead, TwoRead, NextRead};

use basis::Divisor;
use equation::Equation;
use ground::Ground;
use refusal::Refusal;

// The most bytes of a list.
pub const LIST_LIMIT: usize = 32768;

// The least length of a result buffer: the longest record has 40 bytes.
pub const ROOM: usize = 40;

// Is p a prime from 2 to 2147483647?
pub fn is_modulus(p: u32) -> bool
    ensures { Answers (Prime p × (p ≤ limit)) result }
{
    p <= 2147483647 && prime::is_prime(p)
}

// Is the curve of e nonsingular?
pub fn is_nonsingular(e: Equation) -> bool
    requires { NonsingularAsked e }
    ensures { Answers (Nonsingular (curve_of e)) result }
{
    let cube = equation::cube(e);
    equation::nonsingular(e, &cube)
}

// Are the modulus and the coefficients of a curve accepted, and is it nonsingular?
fn check_equation(e: Equation) -> Result<(), Refusal>
    requires { e.a0 ≡ 1 }
    ensures { Checked (equation_stages e) result }
{
    if !is_modulus(e.p) {
        return Err(Refusal::Modulus);
    }
    if !checks::coefficients_below(e) {
        return Err(Refusal::Coefficient);
    }
    if !is_nonsingular(e) {
        return Err(Refusal::Singular);
    }
    Ok(())
}

// A curve: accepted or refused.
pub fn read_curve(s: &[u8]) -> Result<Equation, Refusal>
    ensures { CurveRead s.now result }
{
    form::curve_form(s)?;
    let e = checks::equation(s);
    check_equation(e)?;
    Ok(e)
}

// The work on the ground of a curve, where the curve is accepted.
pub fn on_curve<T, F: FnOnce(Ground) -> Result<T, Refusal>>(
    curve: &[u8],
    work: F,
) -> Result<T, Refusal>
    requires { (g : Ground) → On curve.now g → F.pre work g }
    ensures { DoneOn curve.now (F.post work) result }
{
    let e = read_curve(curve)?;
    work(ground::of(e))
}

// A divisor on the curve of g: accepted or refused.
pub fn read_divisor(g: Ground, s: &[u8]) -> Result<Divisor, Refusal>
    requires { Grounded g }
    ensures { AtGround g (λ p C. DivisorRead p C s.now result) }
{
    let kind = form::divisor_form(s)?;
    let r = checks::value(kind, s);
    if !checks::all_below(g.p, r) {
        return Err(Refusal::Number);
    }
    if !basis::is_basis(g.p, &g.cube, r) {
        return Err(Refusal::NoBasis);
    }
    Ok(r)
}

// Two divisors on the curve of g, the first one first: accepted or refused.
pub fn read_two(g: Ground, a: &[u8], b: &[u8]) -> Result<(Divisor, Divisor), Refusal>
    requires { Grounded g }
    ensures { AtGround g (λ p C. TwoRead p C a.now b.now result) }
{
    let x = read_divisor(g, a)?;
    let y = read_divisor(g, b)?;
    Ok((x, y))
}

// The divisor that starts at the start of s, the bytes left of a list, and the length of its record.
pub fn read_next(g: Ground, s: &[u8]) -> Result<(Divisor, usize), Refusal>
    requires { Grounded g }
    ensures { AtGround g (λ p C. NextRead p C s.now result) }
{
    if s.len() < 4 {
        return Err(Refusal::DivisorSize);
    }
    let n = layout::read_u16(s, 0) as usize;
    if n < 4 || s.len() < n {
        return Err(Refusal::DivisorSize);
    }
    let r = read_divisor(g, &s[..n])?;
    Ok((r, n))
}

// Writes the record of a divisor at the start of `out`, and returns its length.
pub fn write_divisor(r: Divisor, out: &mut [u8]) -> usize
    requires { WriteAsked r out.old }
    ensures { WriteAnswer r out.old out.new result }
{
    let count = r.kind.count();
    let ns = [r.n0, r.n1, r.n2, r.n3, r.n4, r.n5, r.n6, r.n7, r.n8];
    writing::write_record(out, r.kind.code(), &ns[..count])
}
