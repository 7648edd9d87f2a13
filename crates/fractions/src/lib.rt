// Curves with fractions: a record of fractions and a modulus, reduced to a curve record. Crate record, specs/Fractions.antt, says what is
// refused and which numbers the curve record has.
#![tactic(auto)]

ghost use Rattle.std.specs.Prelude.{◌≡◌};
ghost use Rattle.algebra.specs.Answers.{Answers};
ghost use Rattle.record.specs.Fractions.{FractionsForm};
ghost use Rattle.calls.specs.Call.{ReduceCurve};
ghost use Rattle.fractions.specs.Contract.{equation_from, ReduceFound};

use equation::Equation;
use refusal::Refusal;

// The least length of the result buffer: that of a curve record.
const ROOM: usize = 44;

// Has the record the size, the kind and the length of one of fractions?
fn has_form(s: &[u8]) -> bool
    ensures { Answers (FractionsForm s.now) result }
{
    form::sized(s) && layout::read_u16(s, 2) == 36 && s.len() == 76
}

// The equation with the nine coefficients c, modulo p.
fn equation_from(p: u32, c: [u32; 9]) -> Equation
    ensures { result ≡ equation_from p c }
{
    Equation {
        p,
        a0: 1,
        c0: c[0],
        c1: c[1],
        c2: c[2],
        c3: c[3],
        c4: c[4],
        c5: c[5],
        c6: c[6],
        c7: c[7],
        c8: c[8],
    }
}

// The equation of the reduced curve, or the first cause of refusal before the result buffer. The prime p divides a
// denominator exactly if the product of all is 0 modulo p.
fn reduce(s: &[u8], p: u32) -> Result<Equation, Refusal>
    ensures { ReduceFound s.now p result }
{
    if !has_form(s) {
        return Err(Refusal::Fractions);
    }
    if !reader::is_modulus(p) {
        return Err(Refusal::Modulus);
    }
    let d = quotients::residues(s, p);
    let before = quotients::products(p, d);
    if before[9] == 0 {
        return Err(Refusal::Denominator);
    }
    let c = quotients::quotients(s, p, d, before);
    let e = equation_from(p, c);
    if !reader::is_nonsingular(e) {
        return Err(Refusal::Singular);
    }
    Ok(e)
}

// The curve record of a record of fractions modulo p.
pub fn reduce_curve(fractions: &[u8], p: u32, out: &mut [u8]) -> i32
    ensures { ReduceCurve fractions.now p out.old result out.new }
{
    match reduce(fractions, p) {
        Ok(_) if out.len() < ROOM => reply::refusal(Refusal::Room),
        Ok(e) => {
            let ns = [e.p, e.c0, e.c1, e.c2, e.c3, e.c4, e.c5, e.c6, e.c7, e.c8];
            let n = writing::write_record(out, 34, &ns);
            n as i32
        }
        Err(cause) => reply::refusal(cause),
    }
}
