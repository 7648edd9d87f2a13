// The usual sum, quicker (document 02, 2026-08): by formulas with one inversion where these serve under the request's conditions, and else by the plain sum.
#![tactic(auto)]

ghost use Rattle.algebra.specs.Answers.{Answers};
ghost use Rattle.group.specs.Contract.{SumAsked, SumOf};
ghost use Rattle.quick.specs.Served.{ShortGround, TypicalValue, ServedOf};

use basis::Divisor;
use ground::Ground;
use group::SumBy;
use kind::Kind;

// Is p above 3, and are c5, c6 and c8 zero?
fn short_form(g: Ground) -> bool
    ensures { Answers (ShortGround g) result }
{
    if g.p <= 3 {
        return false;
    }
    if g.cube[8] != 0 {
        return false;
    }
    if g.cube[9] != 0 {
        return false;
    }
    if g.cube[11] != 0 {
        return false;
    }
    true
}

// Has the divisor the kind 31, and is its f2 not 0?
fn is_typical(x: Divisor) -> bool
    ensures { Answers (TypicalValue x) result }
{
    if x.kind != Kind::K31 {
        return false;
    }
    if x.n2 == 0 {
        return false;
    }
    true
}

// The sum by formulas, if these serve under the request's conditions.
pub fn served(g: Ground, x: Divisor, y: Divisor) -> Option<Divisor>
    requires { SumAsked g x y }
    ensures { ServedOf g x y result }
{
    if !short_form(g) {
        return None;
    }
    if !is_typical(x) {
        return None;
    }
    if !is_typical(y) {
        return None;
    }
    match group::tried(g, x, y) {
        SumBy::Formulas(s) => Some(s),
        SumBy::Product(_) => None,
    }
}
