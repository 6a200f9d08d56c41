//! Whether a proof shows that no load is lower.
ghost use Rattle.std.specs.Prelude.{◌≡◌, ◌^◌, ◌≤◌, IsTrue, length};
ghost use Rattle.brace_balance.specs.Loads.{never_falls, times, between, posts_hold, accepts, NoneIsLower};

use crate::Proof;
use brace_cuts::rises;

/// Whether `proof` shows that no cuts into `strips` strips have a load below `load`: there are no
/// numbers and it is 0; so many of them are one number; or between each of `strips` + 1 rising
/// posts and the next, with both, there are so many.
///
/// It takes no memory.
pub fn confirms(xs: &[i64], strips: u32, load: u32, proof: &Proof) -> bool
    requires sorted { IsTrue (never_falls xs.now) }
    requires size { length xs.now ≤ 2 ^ 20 }
    requires some { 1 ≤ strips }
    requires few { strips ≤ 64 }
    ensures accepts { result ≡ accepts xs.now strips load proof.now }
    ensures lowest { IsTrue result → NoneIsLower xs.now strips load }
{
    match proof {
        Proof::Empty => load == 0,
        Proof::Stack(p) => load as usize <= times(xs, *p),
        Proof::Posts(posts) => {
            let posts = posts.as_slice();
            posts.len() == strips as usize + 1
                && rises(posts)
                && posts_hold(xs, load as usize, posts)
        }
    }
}

/// How many of the numbers are `p`.
fn times(xs: &[i64], p: i64) -> usize
    ensures { result ≡ times p xs.now }
{
    xs.iter().filter(|v| **v == p).count()
}

/// How many of the numbers are from `p` to `q`, with both.
fn between(xs: &[i64], p: i64, q: i64) -> usize
    ensures { result ≡ between p q xs.now }
{
    xs.iter().filter(|v| p <= **v && **v <= q).count()
}

/// Whether between each post and the next there are at least `n` of the numbers.
fn posts_hold(xs: &[i64], n: usize, posts: &[i64]) -> bool
    ensures { result ≡ posts_hold n xs.now posts.now }
{
    for i in 1..posts.len() {
        if between(xs, posts[i - 1], posts[i]) < n {
            return false;
        }
    }
    true
}
