// Two strings of bytes compared a word of four bytes at a time, from the first.
#![tactic(auto)]

ghost use Rattle.words.specs.Contract.{WalkOf};

// What a walk over two strings of bytes meets: how many pairs of words it compares, and whether all words are the same.
#[derive(Clone, Copy)]
pub struct Walk {
    pub compared: usize,
    pub same: bool,
}

// The walk over a and b, up to and with the first pair of words that differs.
pub fn compare(a: &[u8], b: &[u8]) -> Walk
    ensures { WalkOf a.now b.now result }
{
    let n = a.len() / 4;
    let m = b.len() / 4;
    let most = n.min(m);
    for i in 0..most {
        let v = layout::read_u32(a, 4 * i);
        let w = layout::read_u32(b, 4 * i);
        if v != w {
            return Walk {
                compared: i + 1,
                same: false,
            };
        }
    }
    Walk {
        compared: most,
        same: n == m,
    }
}
