// The ground of the arithmetic on a curve, by value: the modulus p and what divides by it, the inverse of −a0 and the vector of y³.
#![tactic(auto)]

ghost use Rattle.ground.specs.Ground.{GroundAsked, GroundOf};

use barrett::Modulus;
use equation::Equation;

#[derive(Clone, Copy)]
pub struct Ground {
    pub p: u32,
    pub by: Modulus,
    pub unit: u32,
    pub cube: [u32; 26],
}

// The ground of a curve with a0 = 1; −1 is its own inverse.
pub fn of(e: Equation) -> Ground
    requires { GroundAsked e }
    ensures { GroundOf e result }
{
    let by = divider::of(e.p);
    let unit = field::neg(e.p, 1);
    let cube = equation::cube(e);
    Ground {
        p: e.p,
        by,
        unit,
        cube,
    }
}
