ghost use Rattle.std.specs.Prelude.{◌≡◌, pos, ◌<ℤ◌, IfOk, IfSome};
ghost use Rattle.std.specs.Int.{int_wrap, w32};
ghost use Rattle.brace_fold.specs.inner.Sights.{AreHalves};

use crate::cells::Spot;
use brace_code::Redo;
use std::alloc::Global;

/// The lower halves of where agents stand, place by place, and of four places more.
#[derive(Drop)]
pub struct Halves {
    pub xs: Vec<i32>,
    pub ys: Vec<i32>,
}

/// The widest cells that halves are made for: two of them side by side are no wider than a half
/// counts.
const WIDEST: i64 = 1_073_741_824;

/// How many cells there are above 0, and below it, for which halves are made: no two of them share
/// a number with one of another column beside it.
const ROWS: i64 = 262_142;

/// As many places as are numbered with those behind them.
const MANY: usize = 4_294_967_291;

/// The lower half of a word.
fn half(v: i64) -> i32
    ensures { result ≡ int_wrap w32 v }
{
    (v.rem_euclid(4_294_967_296) as u32).cast_signed()
}

impl Halves {
    /// The lower halves of where agents stand in cells of a side, if they tell how far apart those
    /// are that stand in cells beside one another.
    pub fn of(alloc: Global, spots: &[Spot], side: i64) -> Result<Option<Halves>, Redo>
        requires { pos 0 <ℤ side }
        ensures { IfOk result (λ found. IfSome found (λ halves.
            AreHalves side spots.now halves.xs.items halves.ys.items)) }
    {
        if side > WIDEST || spots.len() > MANY {
            return Ok(None);
        }
        let edge = ROWS * side;
        let count = spots.len() + 4;
        let mut xs = Vec::with_capacity(alloc, count)?;
        let mut ys = Vec::with_capacity(alloc, count)?;
        for spot in spots {
            if spot.y < -edge || edge <= spot.y {
                return Ok(None);
            }
            xs.push_reserved(half(spot.x));
            ys.push_reserved(half(spot.y));
        }
        xs.resize(count, 0)?;
        ys.resize(count, 0)?;
        Ok(Some(Halves { xs, ys }))
    }
}
