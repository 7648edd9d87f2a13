// A matrix of three rows of five residues modulo p, an array of arrays by value, and its row-reduced form by cofactors. The columns are a, b, c, d, e; the
// determinant of the first three is z = a·(b × c), and z·d = (d·(b × c))·a + (d·(c × a))·b + (d·(a × b))·c, e likewise.
#![tactic(auto)]

ghost use Rattle.std.specs.Prelude.{◌≡◌, ◌<◌};
ghost use Rattle.field.specs.Residue.{Z, el};
ghost use Rattle.field.specs.Contract.{Is};
ghost use Rattle.barrett.specs.Contract.{dot₃};
ghost use Rattle.matrix.specs.Matrix.{column_at, rows_of, MatrixBelow};
ghost use Rattle.matrix.specs.Contract.{TwoColumns, Crossed, FourColumns, Coordinates, Cleared, TimesAsked, Times, RowReducedAsked, RowReducedOf};

use barrett::Modulus;

// A column: its entries in the rows of 1, of x and of y.
#[derive(Clone, Copy)]
pub struct Column {
    pub one: u32,
    pub x: u32,
    pub y: u32,
}

// The j-th column.
pub fn column_of(m: [[u32; 5]; 3], j: usize) -> Column
    requires { j < 5 }
    ensures { result ≡ column_at m j }
{
    Column {
        one: m[0][j],
        x: m[1][j],
        y: m[2][j],
    }
}

// The matrix of five columns.
pub fn rows(a: Column, b: Column, c: Column, d: Column, e: Column) -> [[u32; 5]; 3]
    ensures { result ≡ rows_of a b c d e }
{
    let one = [a.one, b.one, c.one, d.one, e.one];
    let x = [a.x, b.x, c.x, d.x, e.x];
    let y = [a.y, b.y, c.y, d.y, e.y];
    [one, x, y]
}

// The vector product of two columns.
fn crossed(modulus: Modulus, a: Column, b: Column) -> Column
    requires { TwoColumns modulus.p a b }
    ensures { Crossed modulus.p a b result }
{
    let one = modulus.cross(a.x, b.y, a.y, b.x);
    let x = modulus.cross(a.y, b.one, a.one, b.y);
    let y = modulus.cross(a.one, b.x, a.x, b.one);
    Column { one, x, y }
}

// The scalar product of two columns.
fn dotted(modulus: Modulus, a: Column, b: Column) -> u32
    requires { TwoColumns modulus.p a b }
    ensures { Is modulus.p result (dot₃ (Z modulus.p) (el modulus.p a.one) (el modulus.p b.one) (el modulus.p a.x) (el modulus.p b.x) (el modulus.p a.y) (el modulus.p b.y)) }
{
    modulus.dot3(a.one, b.one, a.x, b.x, a.y, b.y)
}

// z times the row-reduced form of m, z the determinant of its first three columns.
pub fn cleared(modulus: Modulus, m: [[u32; 5]; 3]) -> [[u32; 5]; 3]
    requires { MatrixBelow modulus.p m }
    ensures { Cleared modulus.p m result }
{
    let a = column_of(m, 0);
    let b = column_of(m, 1);
    let c = column_of(m, 2);
    let bc = crossed(modulus, b, c);
    let ca = crossed(modulus, c, a);
    let ab = crossed(modulus, a, b);
    let z = dotted(modulus, a, bc);
    let d = coordinates(modulus, column_of(m, 3), bc, ca, ab);
    let e = coordinates(modulus, column_of(m, 4), bc, ca, ab);
    rows(
        Column { one: z, x: 0, y: 0 },
        Column { one: 0, x: z, y: 0 },
        Column { one: 0, x: 0, y: z },
        d,
        e,
    )
}

// The scalar products of v with three columns.
fn coordinates(modulus: Modulus, v: Column, a: Column, b: Column, c: Column) -> Column
    requires { FourColumns modulus.p v a b c }
    ensures { Coordinates modulus.p v a b c result }
{
    let one = dotted(modulus, v, a);
    let x = dotted(modulus, v, b);
    let y = dotted(modulus, v, c);
    Column { one, x, y }
}

// The row-reduced form of a matrix, where c is z times this form and u the inverse of z.
pub fn row_reduced(modulus: Modulus, c: [[u32; 5]; 3], u: u32) -> [[u32; 5]; 3]
    requires { RowReducedAsked modulus.p c u }
    ensures { RowReducedOf modulus.p c u result }
{
    let d = times(modulus, column_of(c, 3), u);
    let e = times(modulus, column_of(c, 4), u);
    rows(
        Column { one: 1, x: 0, y: 0 },
        Column { one: 0, x: 1, y: 0 },
        Column { one: 0, x: 0, y: 1 },
        d,
        e,
    )
}

// u times a column.
fn times(modulus: Modulus, v: Column, u: u32) -> Column
    requires { TimesAsked modulus.p v u }
    ensures { Times modulus.p v u result }
{
    let one = modulus.mul(v.one, u);
    let x = modulus.mul(v.x, u);
    let y = modulus.mul(v.y, u);
    Column { one, x, y }
}
