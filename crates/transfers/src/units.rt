// Units of an underlying locked and unlocked.
ghost use Rattle.std.specs.Prelude.{◌≡◌};
ghost use Rattle.account.specs.Changes.{decided};
ghost use Rattle.account.specs.Locks.{lock_change, lock_verdict, unlock_change, unlock_verdict};
ghost use Rattle.account.specs.Rows.{holding};
ghost use Rattle.account.specs.Seen.{SeenOf, Wherever};
ghost use Rattle.account.specs.Totals.{spare_units};
ghost use Rattle.transfers.specs.Locked.{allowed_among, locked_seen};

use account::{Change, Decision, Holding, Seen};
use entries::Entry;
use terms::{Measure, Refusal, Units};

pub fn lock(seen: Seen, underlying: u16, units: u32) -> Result<Decision, Refusal>
    requires { SeenOf (Entry.Lock underlying units) seen }
    ensures { Wherever (Entry.Lock underlying units) seen (λ t a. result ≡ decided (lock_verdict t (holding a underlying) underlying units) (lock_change a underlying units)) }
{
    if !allowed(seen.m, underlying, units) {
        return Err(Refusal::OutOfRange);
    }
    let locked = seen.holding.locked.0 + units as u64;
    if !Measure::LockedUnits.allows(locked) {
        return Err(Refusal::CeilingPassed);
    }
    Ok(Decision::Changes(locking(seen, underlying, locked)))
}

pub fn unlock(seen: Seen, underlying: u16, units: u32) -> Result<Decision, Refusal>
    requires { SeenOf (Entry.Unlock underlying units) seen }
    ensures { Wherever (Entry.Unlock underlying units) seen (λ t a. result ≡ decided (unlock_verdict t (spare_units t a underlying) underlying units) (unlock_change a underlying units)) }
{
    if !allowed(seen.m, underlying, units) {
        return Err(Refusal::OutOfRange);
    }
    let holding = seen.holding;
    if units as u64 > holding.locked.0 - seen.running.taken.0 {
        return Err(Refusal::SpareTooFew);
    }
    let locked = holding.locked.0 - units as u64;
    Ok(Decision::Changes(locking(seen, underlying, locked)))
}

fn allowed(m: usize, underlying: u16, units: u32) -> bool
    ensures { result ≡ allowed_among m underlying units }
{
    ((underlying as usize) < m) & Measure::UnitsAtOnce.allows(units as u64)
}

// The underlying's holding with so many units locked; nothing else changes.
fn locking(seen: Seen, underlying: u16, locked: u64) -> Change
    ensures { result ≡ locked_seen seen underlying locked }
{
    Change {
        underlying: underlying as usize,
        holding: Holding {
            locked: Units(locked),
            ..seen.holding
        },
        ..Change::of_sheet(seen.sheet, None, seen.last)
    }
}
