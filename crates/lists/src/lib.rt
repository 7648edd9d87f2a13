// Lists of divisors in bytes, on the ground of a curve: what is made of their records one after another, as their sum, and how many have a kind.
// Each record is read as its own part of the list, from wherever it starts.
#![tactic(auto)]

ghost use Rattle.std.specs.Prelude.{◌≡◌, ◌+◌, ◌<◌, eqb};
ghost use Rattle.divisor.specs.Kind.{code};
ghost use Rattle.group.specs.Contract.{SumAsked, SumOf};
ghost use Rattle.calls.specs.Call.{list_of, one_if};
ghost use Rattle.classes.specs.Found.{Curved, OnCurves, Found};
ghost use Rattle.lists.specs.Totals.{SumOfList, TallyFound};
ghost use Rattle.lists.specs.Fold.{StepAsked, FoldFound};

use basis::Divisor;
use ground::Ground;
use refusal::Refusal;

// What the steps make of `start` and of the divisors of a list, from first to last: a step takes what is made so far, and the next divisor by
// value. A list that is too long is refused first.
pub fn fold_records<A: Copy, F: Fn(A, Divisor) -> A>(
    g: Ground,
    list: &[u8],
    start: A,
    step: F,
) -> Result<A, Refusal>
    requires curved { Curved g }
    requires callable { (a : A) (x : Divisor) → OnCurves g (λ c. StepAsked (F.post step) c list.now start a x) → F.pre step a x }
    ensures { OnCurves g (λ c. FoldFound (F.post step) c list.now start result) }
{
    if list.len() > reader::LIST_LIMIT {
        return Err(Refusal::ListSize);
    }
    let mut made = start;
    let mut rest = list;
    while !rest.is_empty() {
        let (x, n) = reader::read_next(g, rest)?;
        made = step(made, x);
        rest = &rest[n..];
    }
    Ok(made)
}

// The sum of all divisors of a list.
pub fn list_sum_on(g: Ground, list: &[u8]) -> Result<Divisor, Refusal>
    requires { Curved g }
    ensures { OnCurves g (λ c. Found c (list_of c list.now) (SumOfList c list.now) result) }
{
    fold_records(
        g,
        list,
        group::zero_class(),
        |sum: Divisor, x: Divisor| -> Divisor
            requires { SumAsked g sum x }
            ensures { SumOf g sum x result }
        { group::sum(g, sum, x) },
    )
}

// How many divisors of a list have the kind. A list has at most 8,192 records.
pub fn count_on(g: Ground, list: &[u8], kind: u32) -> Result<u16, Refusal>
    requires { Curved g }
    ensures { OnCurves g (λ c. TallyFound c (list_of c list.now) list.now kind result) }
{
    fold_records(
        g,
        list,
        0,
        |count: u16, x: Divisor| -> u16
            requires { count < 65535 }
            ensures { result ≡ count + one_if (eqb (code x.kind) kind) }
        {
            if x.kind.code() == kind {
                count + 1
            } else {
                count
            }
        },
    )
}
