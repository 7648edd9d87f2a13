// Short records in bytes: reading and refusing. Crate short, specs/, says what is accepted and what is refused.
#![tactic(auto)]

ghost use Rattle.std.specs.Prelude.{◌<◌, ◌≤◌};
ghost use Rattle.algebra.specs.Answers.{Answers};
ghost use Rattle.ground.specs.Ground.{Grounded, AtGround};
ghost use Rattle.short.specs.Short.{OfShort};
ghost use Rattle.short_reader.specs.Reading.{FormRead, ShortAsked, Number, ValueOf, FillingZero, ValueRead, ShortRead};

use basis::Divisor;
use ground::Ground;
use kind::Kind;
use refusal::Refusal;

// The kind for which a short record stands that has its size, a kind and its kind's length.
fn short_form(p: u32, s: &[u8]) -> Result<Kind, Refusal>
    requires { 0 < p }
    ensures { FormRead p s.now result }
{
    if !form::sized(s) {
        return Err(Refusal::DivisorSize);
    }
    let code = layout::read_u16(s, 2);
    if code < 100 {
        return Err(Refusal::DivisorKind);
    }
    let old = code - 100;
    let Ok(kind) = Kind::try_from(old) else {
        return Err(Refusal::DivisorKind);
    };
    let w = packing::bit_length(p - 1) as usize;
    let size = 4 + (w * kind.count() + 7) / 8;
    if s.len() != size {
        return Err(Refusal::DivisorSize);
    }
    Ok(kind)
}

// The i-th of `count` numbers of w bits; 0 past them.
fn number(s: &[u8], w: u32, count: usize, i: usize) -> u32
    requires w_bound { w ≤ 32 }
    requires i_bound { i < 9 }
    ensures { Number w count s.now i result }
{
    if i < count {
        let from = 32 + (w as usize) * i;
        return unpacking::read_bits(s, from, w);
    }
    0
}

// The divisor of a kind with the numbers of a short record.
fn value(p: u32, kind: Kind, s: &[u8]) -> Divisor
    requires { 0 < p }
    ensures { ValueOf p s.now kind result }
{
    let count = kind.count();
    let w = packing::bit_length(p - 1);
    Divisor {
        kind,
        n0: number(s, w, count, 0),
        n1: number(s, w, count, 1),
        n2: number(s, w, count, 2),
        n3: number(s, w, count, 3),
        n4: number(s, w, count, 4),
        n5: number(s, w, count, 5),
        n6: number(s, w, count, 6),
        n7: number(s, w, count, 7),
        n8: number(s, w, count, 8),
    }
}

// Are the bits behind the last number zero? The record stands for one of the kind.
fn filling_zero(p: u32, kind: Kind, s: &[u8]) -> bool
    requires asked { ShortAsked p s.now }
    requires of_kind { OfShort s.now kind }
    ensures { Answers (FillingZero p s.now) result }
{
    let w = packing::bit_length(p - 1) as usize;
    let from = 32 + w * kind.count();
    unpacking::read_bits(s, from, 8) == 0
}

// A divisor by value on the curve of g: accepted or refused as its record is.
fn read_value(g: Ground, x: Divisor) -> Result<Divisor, Refusal>
    requires { Grounded g }
    ensures { AtGround g (λ p C. ValueRead p C x result) }
{
    let mut bytes = [0u8; 40];
    let n = reader::write_divisor(x, &mut bytes);
    reader::read_divisor(g, &bytes[..n])
}

// A short record on the curve of g: accepted or refused.
pub fn read_short(g: Ground, s: &[u8]) -> Result<Divisor, Refusal>
    requires { Grounded g }
    ensures { AtGround g (λ p C. ShortRead p C s.now result) }
{
    let kind = short_form(g.p, s)?;
    let x = value(g.p, kind, s);
    let zero = filling_zero(g.p, kind, s);
    let read = read_value(g, x);
    match read {
        Err(Refusal::Number) => Err(Refusal::Number),
        _ if !zero => Err(Refusal::Filling),
        _ => read,
    }
}
