ghost use Rattle.std.specs.Prelude.{
  ◌≡◌,
  ◌+◌,
  ◌-◌,
  ◌*◌,
  ◌<◌,
  ◌≤◌,
  ◌^◌,
  ◌++◌,
  ◌&&◌,
  [],
  ℕ,
  All,
  IfOk,
  OnOk,
  Option,
  None,
  Some,
  cond,
  filter,
  length,
  nat_le,
  nat_lt,
  not,
  slice_index_or,
};
ghost use Rattle.std.specs.List.{cons_option, filter_map, range_with_len};
ghost use Rattle.std.specs.Option.{option_map_or};
ghost use Rattle.round_rules.specs.View.{no_dir};
ghost use Rattle.round_rules.specs.Instance.{find_cap, times_in};
ghost use Rattle.round_rules.specs.Next.{is_listed, raised_from};
ghost use Rattle.limit_rounds.specs.Caps.{cap_at, cap_for_load, entry, halves_at, next_entry, share_at};

use crate::fault::push_if;
use crate::loads::Load;
use crate::units::Share;
use plan_base::NoMemory;
use round_rules::Cap;
use std::alloc::Global;
use view_build::ViewDir;

/// The caps after a round: those of directions with a new cap are raised, the others stay.
pub(crate) fn raise(
    alloc: Global,
    caps: &[Cap],
    wanted: &[Option<u64>],
) -> Result<Vec<Cap>, NoMemory>
    requires within { All (λ c. c.dir < length wanted.now) caps.now }
    requires few { length wanted.now < 2 ^ 32 }
    requires times { (d : ℕ) → d < length wanted.now → times_in caps.now d ≤ 3 }
    ensures { IfOk result (λ cs. cs.items ≡ filter_map (entry caps.now wanted.now) (range_with_len 0 (length wanted.now))) }
{
    let found = entries_of(alloc, wanted.len(), caps)?;
    let mut out = Vec::new(alloc);
    for d in 0..wanted.len() {
        let next = next_cap(d as u32, wanted[d], found[d]);
        push_some(&mut out, next)?;
    }
    Ok(out)
}

/// Appends the entry, if there is one.
fn push_some(out: &mut Vec<Cap>, next: Option<Cap>) -> Result<(), NoMemory>
    ensures { OnOk result (out.new.items ≡ out.old.items ++ cons_option next []) }
{
    if let Some(cap) = next {
        out.push(cap)?;
    }
    Ok(())
}

/// The entry of each direction.
fn entries_of(alloc: Global, count: usize, caps: &[Cap]) -> Result<Vec<Option<Cap>>, NoMemory>
    requires { All (λ c. c.dir < count) caps.now }
    ensures long { IfOk result (λ all. length all.items ≡ count) }
    ensures found { IfOk result (λ all. (d : ℕ) → d < count → slice_index_or all.items d None ≡ find_cap caps.now d) }
{
    let mut all = vec![in alloc; None; count]?;
    for i in 0..caps.len() {
        let cap = caps[caps.len() - 1 - i];
        all[cap.dir as usize] = Some(cap);
    }
    Ok(all)
}

/// The entry of a direction after the round.
fn next_cap(dir: u32, wanted: Option<u64>, found: Option<Cap>) -> Option<Cap>
    requires { option_map_or (λ c. c.times) found 0 ≤ 3 }
    ensures { result ≡ next_entry dir wanted found }
{
    let times = times_of(found);
    match wanted {
        Some(cap) => Some(raised_cap(dir, cap, times)),
        None => found,
    }
}

/// How many times the entry's direction was listed.
fn times_of(found: Option<Cap>) -> u8
    ensures { result ≡ option_map_or (λ c. c.times) found 0 }
{
    match found {
        Some(cap) => cap.times,
        None => 0,
    }
}

/// The entry of a direction that is listed once more.
fn raised_cap(dir: u32, cap: u64, times: u8) -> Cap
    requires { times ≤ 3 }
    ensures { result ≡ raised_from dir cap times }
{
    let cap = if times < 2 { cap } else { 0 };
    Cap {
        dir,
        cap,
        times: times + 1,
    }
}

/// For each listed direction the cap that would have kept its limits.
pub(crate) fn caps_for_loads(
    alloc: Global,
    dirs: &[ViewDir],
    listed: &[u32],
    loads: &[Load],
    shares: &[Share],
    unit: u64,
) -> Result<Vec<Option<u64>>, NoMemory>
    requires within { All (λ d. d < length dirs.now) listed.now }
    requires loads { length loads.now ≡ length dirs.now }
    requires shares { length shares.now ≡ length dirs.now }
    requires unit { 1 ≤ unit }
    requires most { (d : ℕ) → d < length dirs.now → (slice_index_or dirs.now d no_dir).max + (share_at shares.now d).units * unit < 2 ^ 64 }
    ensures long { IfOk result (λ all. length all.items ≡ length dirs.now) }
    ensures value { IfOk result (λ all. (d : ℕ) → d < length dirs.now → slice_index_or all.items d None ≡ cond (is_listed listed.now d) (Some (cap_at dirs.now loads.now shares.now unit d)) None) }
{
    let mut all = vec![in alloc; None; dirs.len()]?;
    for i in 0..listed.len() {
        let dir = listed[i] as usize;
        all[dir] = Some(cap_for_load(&dirs[dir], loads[dir], shares[dir].units, unit));
    }
    Ok(all)
}

/// The units that would have kept the limit of a direction, with the fees as they were; none if a part carries too
/// little.
fn cap_for_load(dir: &ViewDir, load: Load, units: u64, unit: u64) -> u64
    requires unit { 1 ≤ unit }
    requires most { dir.now.max + units * unit < 2 ^ 64 }
    ensures { result ≡ cap_for_load dir.now load units unit }
{
    if load.least < dir.htlc_min {
        return 0;
    }
    let most = dir.max + units * unit;
    (u128::from(most).saturating_sub(load.total) / u128::from(unit)) as u64
}

/// For each listed direction a cap of 0.
pub(crate) fn zero_caps(
    alloc: Global,
    count: usize,
    listed: &[u32],
) -> Result<Vec<Option<u64>>, NoMemory>
    requires { All (λ d. d < count) listed.now }
    ensures long { IfOk result (λ all. length all.items ≡ count) }
    ensures value { IfOk result (λ all. (d : ℕ) → d < count → slice_index_or all.items d None ≡ cond (is_listed listed.now d) (Some 0) None) }
{
    let mut all = vec![in alloc; None; count]?;
    for i in 0..listed.len() {
        all[listed[i] as usize] = Some(0);
    }
    Ok(all)
}

/// The listed directions that smaller parts cannot pass.
pub(crate) fn closed_dirs(
    alloc: Global,
    dirs: &[ViewDir],
    listed: &[u32],
    size: u64,
    coarse: u64,
) -> Result<Vec<u32>, NoMemory>
    requires { All (λ d. d < length dirs.now) listed.now }
    ensures { IfOk result (λ ds. ds.items ≡ filter (λ d. not (halves_at dirs.now size coarse d)) listed.now) }
{
    let mut closed = Vec::new(alloc);
    for i in 0..listed.len() {
        let dir = listed[i];
        let halves = can_halve(&dirs[dir as usize], size, coarse);
        push_if(&mut closed, !halves, dir)?;
    }
    Ok(closed)
}

/// Whether smaller parts can pass a direction.
fn can_halve(dir: &ViewDir, size: u64, coarse: u64) -> bool
    ensures { result ≡ (nat_lt 1 size && nat_le coarse dir.now.htlc_max) }
{
    size > 1 && coarse <= dir.htlc_max
}
