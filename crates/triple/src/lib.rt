// Triples of vectors over k[x]: the j-th member is monic with a degree that is j modulo 3, or absent (all zero, with the
// degree 26). A triple stands for the span of its members over k[x].
#![tactic(auto)]

ghost use Rattle.std.specs.Prelude.{◌≡◌, replicate};
ghost use Rattle.algebra.specs.Answers.{Answers};
ghost use Rattle.vector.specs.Vector.{width};
ghost use Rattle.triple.specs.Contract.{InsertAsked, Inserted, TurnAsked, Turned, AllAsked, AllInserted, Whole};

use std::mem;

// Three vectors, and the degrees of the three.
#[derive(Clone, Copy)]
pub struct Triple {
    pub rows: [[u32; 26]; 3],
    pub degrees: [usize; 3],
}

impl Triple {
    // The triple without members.
    pub fn empty() -> Triple
        ensures rows { result.rows ≡ replicate 3 (replicate width 0) }
        ensures degrees { result.degrees ≡ replicate 3 width }
    {
        Triple {
            rows: [[0; 26]; 3],
            degrees: [26; 3],
        }
    }

    // v, which is below top, is put into the triple; v is used up.
    pub fn insert(&mut self, p: u32, v: &mut [u32; 26], top: usize)
        requires { InsertAsked p self.old.rows self.old.degrees v.old top }
        ensures { Inserted p self.old.rows self.old.degrees v.old self.new.rows self.new.degrees }
    {
        let mut n = top;
        while 0 < n {
            n = self.turn(p, v, n - 1);
        }
    }

    // One turn of insert, for v below m + 1: v loses its coefficient at m to the member of its class, or takes that member's
    // place and goes on as the old member less its multiple. Returns the place below which v now is.
    fn turn(&mut self, p: u32, v: &mut [u32; 26], m: usize) -> usize
        requires { TurnAsked p self.old.rows self.old.degrees v.old m }
        ensures { Turned p self.old.rows self.old.degrees v.old m self.new.rows self.new.degrees v.new result }
    {
        if v[m] == 0 {
            return m;
        }
        let j = m % 3;
        let old = self.degrees[j];
        if old <= m {
            vector::clear(p, v, m, &self.rows[j], old);
            return m;
        }
        vector::make_monic(p, v, m);
        mem::swap(&mut self.rows[j], v);
        self.degrees[j] = m;
        if old < 26 {
            vector::clear(p, v, old, &self.rows[j], m);
            return old;
        }
        0
    }

    // The three vectors ys, the j-th below top + 4·j, are put into the triple, until it is that of the whole ring.
    pub fn insert_all(&mut self, p: u32, ys: &[[u32; 26]; 3], top: usize)
        requires { AllAsked p self.old.rows self.old.degrees ys.now top }
        ensures { AllInserted p self.old.rows self.old.degrees ys.now self.new.rows self.new.degrees }
    {
        for j in 0..3 {
            if self.is_whole() {
                return;
            }
            let mut v = ys[j];
            self.insert(p, &mut v, top + 4 * j);
        }
    }

    // Are the degrees those of the whole ring?
    pub fn is_whole(&self) -> bool
        ensures { Answers (Whole self.now.degrees) result }
    {
        self.degrees == [0, 4, 8]
    }
}
