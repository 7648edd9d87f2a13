// The calls of the host, for programs in Rattle; crate c34_c exports them for C. Each takes slices and numbers, checks them in
// the documents' order and returns a signed number: minus the number of the refusal, or what the call is for.
#![tactic(auto)]

ghost use Rattle.calls.specs.Call.{CheckCurve, CheckDivisor, Sum, Double, Negative, Multiple, ListSum, Compare, Count, ReduceCurve, CompareWords, CommonPart, CommonMultiple, QuickServes};
ghost use Rattle.short.specs.ShortCall.{Shorten, Lengthen};

// 1 for an accepted curve.
pub fn c34_check_curve(curve: &[u8]) -> i32
    ensures { CheckCurve curve.now result }
{
    answer::check_curve(curve)
}

// 1 for an accepted divisor on an accepted curve.
pub fn c34_check_divisor(curve: &[u8], divisor: &[u8]) -> i32
    ensures { CheckDivisor curve.now divisor.now result }
{
    answer::check_divisor(curve, divisor)
}

// The sum of two divisors.
pub fn c34_sum(curve: &[u8], a: &[u8], b: &[u8], out: &mut [u8]) -> i32
    ensures { Sum curve.now a.now b.now out.old result out.new }
{
    answer::sum(curve, a, b, out)
}

// The sum of a divisor with itself.
pub fn c34_double(curve: &[u8], a: &[u8], out: &mut [u8]) -> i32
    ensures { Double curve.now a.now out.old result out.new }
{
    answer::double(curve, a, out)
}

// The negative of a divisor.
pub fn c34_negative(curve: &[u8], a: &[u8], out: &mut [u8]) -> i32
    ensures { Negative curve.now a.now out.old result out.new }
{
    answer::negative(curve, a, out)
}

// The multiple of a divisor by n.
pub fn c34_multiple(curve: &[u8], a: &[u8], n: i64, out: &mut [u8]) -> i32
    ensures { Multiple curve.now a.now n out.old result out.new }
{
    answer::multiple(curve, a, n, out)
}

// The sum of all divisors of a list.
pub fn c34_list_sum(curve: &[u8], list: &[u8], out: &mut [u8]) -> i32
    ensures { ListSum curve.now list.now out.old result out.new }
{
    answer::list_sum(curve, list, out)
}

// 1 if two divisors have the same bytes, else 0.
pub fn c34_compare(curve: &[u8], a: &[u8], b: &[u8]) -> i32
    ensures { Compare curve.now a.now b.now result }
{
    comparison::compare(curve, a, b)
}

// How many divisors of a list have the kind.
pub fn c34_count(curve: &[u8], list: &[u8], kind: u32) -> i32
    ensures { Count curve.now list.now kind result }
{
    answer::count(curve, list, kind)
}

// The curve of a record of fractions modulo p.
pub fn c34_reduce_curve(fractions: &[u8], p: u32, out: &mut [u8]) -> i32
    ensures { ReduceCurve fractions.now p out.old result out.new }
{
    fractions::reduce_curve(fractions, p, out)
}

// How many pairs of words of two divisors are compared.
pub fn c34_compare_words(curve: &[u8], a: &[u8], b: &[u8]) -> i32
    ensures { CompareWords curve.now a.now b.now result }
{
    comparison::compare_words(curve, a, b)
}

// The common part of two divisors.
pub fn c34_common_part(curve: &[u8], a: &[u8], b: &[u8], out: &mut [u8]) -> i32
    ensures { CommonPart curve.now a.now b.now out.old result out.new }
{
    overlap::common_part(curve, a, b, out)
}

// The reduced form of the common multiple of two divisors.
pub fn c34_common_multiple(curve: &[u8], a: &[u8], b: &[u8], out: &mut [u8]) -> i32
    ensures { CommonMultiple curve.now a.now b.now out.old result out.new }
{
    overlap::common_multiple(curve, a, b, out)
}

// The sum of two divisors, by the second road.
pub fn c34_sum_by_parts(curve: &[u8], a: &[u8], b: &[u8], out: &mut [u8]) -> i32
    ensures { Sum curve.now a.now b.now out.old result out.new }
{
    overlap::sum_by_parts(curve, a, b, out)
}

// The sum of two divisors, by formulas with one inversion where they serve.
pub fn c34_quick_sum(curve: &[u8], a: &[u8], b: &[u8], out: &mut [u8]) -> i32
    ensures { Sum curve.now a.now b.now out.old result out.new }
{
    quick_calls::sum(curve, a, b, out)
}

// The sum of a divisor with itself, by the same formulas.
pub fn c34_quick_double(curve: &[u8], a: &[u8], out: &mut [u8]) -> i32
    ensures { Double curve.now a.now out.old result out.new }
{
    quick_calls::double(curve, a, out)
}

// 1 where the formulas serve for the sum of two divisors, and 0 where the quick sum falls back.
pub fn c34_quick_serves(curve: &[u8], a: &[u8], b: &[u8]) -> i32
    ensures { QuickServes curve.now a.now b.now result }
{
    quick_calls::serves(curve, a, b)
}

// The short form of a divisor record.
pub fn c34_shorten(curve: &[u8], divisor: &[u8], out: &mut [u8]) -> i32
    ensures { Shorten curve.now divisor.now out.old result out.new }
{
    short_calls::shorten(curve, divisor, out)
}

// The divisor record for which a short one stands.
pub fn c34_lengthen(curve: &[u8], short: &[u8], out: &mut [u8]) -> i32
    ensures { Lengthen curve.now short.now out.old result out.new }
{
    short_calls::lengthen(curve, short, out)
}
