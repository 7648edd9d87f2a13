// Two walks over a pair of strings of bytes, for bench/words.c to time: by words, as the comparison is, and by bytes, as it was before.
#![tactic(auto)]

ghost use Rattle.std.specs.Prelude.{◌≡◌};
ghost use Rattle.algebra.specs.Answers.{Answers};
ghost use Rattle.words.specs.Words.{words};
ghost use Rattle.bench_words.specs.Contract.{Says};

// 1 if a and b have the same words of four bytes, else 0.
#[unsafe(no_mangle)]
pub extern "C" fn bench_by_words(a: &[u8], b: &[u8]) -> u32
    ensures { Says (words a.now ≡ words b.now) result }
{
    let walk = words::compare(a, b);
    if walk.same { 1 } else { 0 }
}

// 1 if a and b are the same bytes, else 0.
#[unsafe(no_mangle)]
pub extern "C" fn bench_by_bytes(a: &[u8], b: &[u8]) -> u32
    ensures { Says (a.now ≡ b.now) result }
{
    if same_bytes(a, b) { 1 } else { 0 }
}

// Whether a and b are the same bytes.
fn same_bytes(a: &[u8], b: &[u8]) -> bool
    ensures { Answers (a.now ≡ b.now) result }
{
    if a.len() != b.len() {
        return false;
    }
    for i in 0..a.len() {
        if a[i] != b[i] {
            return false;
        }
    }
    true
}
