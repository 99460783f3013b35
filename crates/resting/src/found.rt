// The order that a number names, or nothing.
ghost use Rattle.std.specs.Prelude.{◌≡◌, ℕ};
ghost use Rattle.account.specs.Seen.{Wherever};
ghost use Rattle.resting.specs.Found.{NumberSees, found_by};

use crate::named::named_at;
use account::{Named, Seen};
use entries::Entry;

pub fn find(seen: Seen) -> Option<Named>
    requires { NumberSees seen }
    ensures { (number : ℕ) → Wherever (Entry.Cancel number) seen (λ t a. result ≡ found_by t a number) }
{
    if seen.place >= terms::PLACES {
        return None;
    }
    Some(named_at(seen))
}
