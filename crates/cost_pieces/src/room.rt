ghost use Rattle.std.specs.Prelude.{◌≡◌, ◌+◌, ◌*◌, ◌≤◌, ◌/◌, All, length, min, sum_by};
ghost use Rattle.plan_base.specs.declared.amount.TheConstants.{MAX};
ghost use Rattle.cost_pieces.specs.Pieces.{rooms_of};

use crate::scale::PIECES;

/// The rooms of a direction's pieces, in units of `unit` msat, for known bounds `lo` to `hi` in msat. The cut points
/// are 0, the known minimum, 30, 50, 65, 80, 90 and 95 hundredths of the way to the known maximum, and the known
/// maximum; each is then cut to `cap` units. No memory is taken.
#[tactic(auto, using(crate::proofs::Rooms::rooms_sum))]
pub fn pieces(lo: u64, hi: u64, unit: u64, cap: u64) -> [u64; PIECES]
    requires order { lo ≤ hi }
    requires most { hi ≤ MAX }
    requires unit { 1 ≤ unit }
    ensures value { result ≡ rooms_of lo hi unit cap }
    ensures most { All (λ room. room ≤ cap) (rooms_of lo hi unit cap) }
    ensures sum { sum_by (λ room. room) (rooms_of lo hi unit cap) ≡ min (hi / unit) cap }
    ensures count { length (rooms_of lo hi unit cap) ≡ PIECES }
    ensures pieces { PIECES ≡ 8 }
{
    let least = lo / unit;
    let most = hi / unit;
    let gap = most - least;
    let first = least.min(cap);
    let second = point(least, gap, 30).min(cap);
    let third = point(least, gap, 50).min(cap);
    let fourth = point(least, gap, 65).min(cap);
    let fifth = point(least, gap, 80).min(cap);
    let sixth = point(least, gap, 90).min(cap);
    let seventh = point(least, gap, 95).min(cap);
    let last = most.min(cap);
    [
        first,
        second - first,
        third - second,
        fourth - third,
        fifth - fourth,
        sixth - fifth,
        seventh - sixth,
        last - seventh,
    ]
}

/// The point at so many hundredths of the gap after `least`. The whole hundreds of the gap and the rest are multiplied
/// apart, since the product of the gap itself can exceed 64 bits.
fn point(least: u64, gap: u64, hundredths: u64) -> u64
    requires most { least + gap ≤ MAX }
    requires part { hundredths ≤ 100 }
    ensures value { result ≡ least + gap * hundredths / 100 }
    ensures within { result ≤ least + gap }
{
    least + gap / 100 * hundredths + gap % 100 * hundredths / 100
}
