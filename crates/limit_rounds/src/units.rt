ghost use Rattle.std.specs.Prelude.{◌≡◌, ◌≢◌, ◌+◌, ◌<◌, ◌≤◌, ◌^◌, ℕ, All, IfOk, cond, length, nat_eq, sum_by};
ghost use Rattle.std.specs.List.{list_any};
ghost use Rattle.plan_base.specs.declared.amount.TheConstants.{MAX};
ghost use Rattle.path_split.specs.Parts.{units_on};
ghost use Rattle.limit_rounds.specs.Caps.{counted, no_share, share_at};

use path_split::Part;
use plan_base::NoMemory;
use std::alloc::Global;

/// The units of the parts that pass a direction, and the last part that was counted; parts count from 1.
#[derive(Clone, Copy, Debug)]
pub(crate) struct Share {
    pub units: u64,
    pub part: u64,
}

impl Share {
    /// No part passes the direction.
    fn none() -> Share
        ensures { result ≡ no_share }
    {
        Share { units: 0, part: 0 }
    }

    /// This part passes the direction.
    fn counted(self, units: u64, part: u64) -> Share
        requires { self.part ≢ part → self.units + units < 2 ^ 64 }
        ensures { result ≡ counted self units part }
    {
        if self.part == part {
            return self;
        }
        Share {
            units: self.units + units,
            part,
        }
    }
}

/// The units of the parts that pass each direction.
pub(crate) fn units_of(alloc: Global, count: usize, parts: &[Part]) -> Result<Vec<Share>, NoMemory>
    requires within { All (λ p. All (λ d. d < count) p.path) parts.now }
    requires most { sum_by (λ p. p.units) parts.now ≤ MAX }
    ensures long { IfOk result (λ all. length all.items ≡ count) }
    ensures units { IfOk result (λ all. (d : ℕ) → d < count → (share_at all.items d).units ≡ units_on d parts.now) }
{
    let mut all = vec![in alloc; Share::none(); count]?;
    for i in 0..parts.len() {
        add_part(
            &mut all,
            parts[i].path.as_slice(),
            parts[i].units,
            i as u64 + 1,
        );
    }
    Ok(all)
}

/// Counts a part over each direction of its path.
fn add_part(shares: &mut Vec<Share>, path: &[u32], units: u64, part: u64)
    requires within { All (λ d. d < length shares.old.items) path.now }
    requires before { (d : ℕ) → d < length shares.old.items → (share_at shares.old.items d).part < part }
    requires fits { (d : ℕ) → d < length shares.old.items → (share_at shares.old.items d).units + units < 2 ^ 64 }
    ensures long { length shares.new.items ≡ length shares.old.items }
    ensures value { (d : ℕ) → d < length shares.old.items → share_at shares.new.items d ≡ cond (list_any (nat_eq d) path.now) (record {
      units = (share_at shares.old.items d).units + units;
      part = part;
    }) (share_at shares.old.items d) }
{
    for i in 0..path.len() {
        let dir = path[i] as usize;
        shares[dir] = shares[dir].counted(units, part);
    }
}
