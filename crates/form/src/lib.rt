// The form of curve and divisor records in bytes: their size, their kind and their kind's length. Crate record, specs/, says what is refused.
#![tactic(auto)]

ghost use Rattle.algebra.specs.Answers.{Answers};
ghost use Rattle.record.specs.Cause.{Sized};
ghost use Rattle.record.specs.Curve.{curve_form};
ghost use Rattle.form.specs.Contract.{Checked, FormRead};

use kind::Kind;
use refusal::Refusal;

// Is the length field that of the bytes given? It serves every record, whatever its kind.
pub fn sized(s: &[u8]) -> bool
    ensures { Answers (Sized s.now) result }
{
    s.len() >= 4 && layout::read_u16(s, 0) as usize == s.len()
}

// Has a curve its size, its kind and its kind's length?
pub fn curve_form(s: &[u8]) -> Result<(), Refusal>
    ensures { Checked (curve_form s.now) result }
{
    if !sized(s) {
        return Err(Refusal::CurveSize);
    }
    if layout::read_u16(s, 2) != 34 {
        return Err(Refusal::CurveKind);
    }
    if s.len() != 44 {
        return Err(Refusal::CurveSize);
    }
    Ok(())
}

// The kind of a divisor that has its size, a kind and its kind's length.
pub fn divisor_form(s: &[u8]) -> Result<Kind, Refusal>
    ensures { FormRead s.now result }
{
    if !sized(s) {
        return Err(Refusal::DivisorSize);
    }
    let code = layout::read_u16(s, 2);
    let Ok(kind) = Kind::try_from(code) else {
        return Err(Refusal::DivisorKind);
    };
    let size = 4 + 4 * kind.count();
    if s.len() != size {
        return Err(Refusal::DivisorSize);
    }
    Ok(kind)
}
