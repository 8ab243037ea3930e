ghost use Rattle.std.specs.Prelude.{◌≡◌, ◌<◌, ◌≤◌, ◌^◌, ℕ, All, length, slice_index_or};
ghost use Rattle.plan_base.specs.declared.amount.TheConstants.{MAX};
ghost use Rattle.view_build.specs.View.{IsGoodViewDir};
ghost use Rattle.round_rules.specs.View.{no_dir};
ghost use Rattle.round_rules.specs.Chance.{chance_of, probability_of};
ghost use Rattle.limit_rounds.specs.Loads.{load_at};

use crate::loads::Load;
use view_build::ViewDir;

/// How likely it is, in millionths, that all directions hold what is carried over them. No memory is taken.
pub(crate) fn probability(dirs: &[ViewDir], loads: &[Load]) -> u64
    requires good { All (IsGoodViewDir (2 ^ 32)) dirs.now }
    requires long { length loads.now ≡ length dirs.now }
    requires within { (d : ℕ) → d < length dirs.now → (load_at loads.now d).total ≤ (slice_index_or dirs.now d no_dir).max }
    ensures value { result ≡ probability_of (λ d. (load_at loads.now d).total) dirs.now }
    ensures most { result ≤ 10 ^ 6 }
{
    let mut p = 1_000_000;
    for i in 0..dirs.len() {
        p = chance(p, dirs[i].min, dirs[i].max, loads[i].total);
    }
    p
}

/// How likely it is that one more direction holds what is carried.
fn chance(p: u64, lo: u64, hi: u64, total: u128) -> u64
    requires most { p ≤ 10 ^ 6 }
    requires order { lo ≤ hi }
    requires limit { hi ≤ MAX }
    requires within { total ≤ hi }
    ensures value { result ≡ chance_of lo hi total p }
    ensures most { result ≤ 10 ^ 6 }
{
    if total <= u128::from(lo) {
        return p;
    }
    let more = u128::from(hi) + 1 - total;
    let width = u128::from(hi) + 1 - u128::from(lo);
    (u128::from(p) * more / width) as u64
}
