// Curves by their coefficients: the vector of y³, and the test whether the curve is nonsingular.
#![tactic(auto)]

ghost use Rattle.algebra.specs.Answers.{Answers};
ghost use Rattle.algebra.specs.Ring.{CommRing};
ghost use Rattle.nonsingular.specs.Nonsingular.{Nonsingular};
ghost use Rattle.field.specs.Residue.{el, Z};
ghost use Rattle.field.specs.Contract.{Below₁, Is};
ghost use Rattle.nonsingular.specs.Derivative.{twice as double, thrice as treble};
ghost use Rattle.equation.specs.Equation.{curve_of, Coefficients, IsCube, DerivativeAsked, DerivativeX, DerivativeY, TestAsked};

use triple::Triple;

// y³ + a0·x⁴ + c8·xy² + c7·x²y + c6·x³ + c5·y² + c4·xy + c3·x² + c2·y + c1·x + c0 modulo p
#[derive(Clone, Copy)]
pub struct Equation {
    pub p: u32,
    pub a0: u32,
    pub c0: u32,
    pub c1: u32,
    pub c2: u32,
    pub c3: u32,
    pub c4: u32,
    pub c5: u32,
    pub c6: u32,
    pub c7: u32,
    pub c8: u32,
}

// The vector of y³.
pub fn cube(e: Equation) -> [u32; 26]
    requires { Coefficients e }
    ensures { IsCube e result }
{
    let p = e.p;
    let v0 = field::neg(p, e.c0);
    let v3 = field::neg(p, e.c1);
    let v4 = field::neg(p, e.c2);
    let v6 = field::neg(p, e.c3);
    let v7 = field::neg(p, e.c4);
    let v8 = field::neg(p, e.c5);
    let v9 = field::neg(p, e.c6);
    let v10 = field::neg(p, e.c7);
    let v11 = field::neg(p, e.c8);
    let v12 = field::neg(p, e.a0);
    [
        v0, 0, 0, v3, v4, 0, v6, v7, v8, v9, v10, v11, v12, 0, 0, 0, 0, 0, 0, 0, 0, 0, 0, 0, 0, 0,
    ]
}

// Is the curve nonsingular? cube is the vector of y³. The ideal of the two derivatives is the whole ring exactly then.
pub fn nonsingular(e: Equation, cube: &[u32; 26]) -> bool
    requires { TestAsked e cube.now }
    ensures { Answers (Nonsingular (curve_of e)) result }
{
    let p = e.p;
    let mut t = Triple::empty();
    let v = derivative_y(e);
    let ys = multiplication::y_multiples(p, cube, &v, 9);
    t.insert_all(p, &ys, 9);
    let w = derivative_x(e);
    let zs = multiplication::y_multiples(p, cube, &w, 10);
    t.insert_all(p, &zs, 10);
    t.is_whole()
}

// The derivative by x: c1 + 2c3·x + 3c6·x² + 4a0·x³ + (c4 + 2c7·x)·y + c8·y²
fn derivative_x(e: Equation) -> [u32; 26]
    requires { Coefficients e }
    ensures { DerivativeX e result }
{
    let p = e.p;
    let v3 = twice(p, e.c3);
    let v6 = thrice(p, e.c6);
    let v7 = twice(p, e.c7);
    let v9 = twice(p, twice(p, e.a0));
    [
        e.c1, 0, 0, v3, e.c4, 0, v6, v7, e.c8, v9, 0, 0, 0, 0, 0, 0, 0, 0, 0, 0, 0, 0, 0, 0, 0, 0,
    ]
}

// The derivative by y: c2 + c4·x + c7·x² + (2c5 + 2c8·x)·y + 3y²
fn derivative_y(e: Equation) -> [u32; 26]
    requires { DerivativeAsked e }
    ensures { DerivativeY e result }
{
    let p = e.p;
    let v4 = twice(p, e.c5);
    let v7 = twice(p, e.c8);
    let v8 = thrice(p, 1);
    [
        e.c2, 0, 0, e.c4, v4, 0, e.c7, v7, v8, 0, 0, 0, 0, 0, 0, 0, 0, 0, 0, 0, 0, 0, 0, 0, 0, 0,
    ]
}

// 2a
fn twice(p: u32, a: u32) -> u32
    requires { Below₁ p a }
    ensures { Is p result (double (Z p) (el p a)) }
{
    field::add(p, a, a)
}

// 3a
fn thrice(p: u32, a: u32) -> u32
    requires { Below₁ p a }
    ensures { Is p result (treble (Z p) (el p a)) }
{
    field::add(p, twice(p, a), a)
}
