// A cancel: 7, or the place is free, the rest of the hold is freed and a buy open's remainder is off the daily count.
ghost use Rattle.std.specs.Prelude.{◌≡◌, ℕ};
ghost use Rattle.account.specs.Changes.{decided};
ghost use Rattle.account.specs.Fills.{cancel_change, cancel_verdict, named};
ghost use Rattle.account.specs.Seen.{Wherever};
ghost use Rattle.resting.specs.Found.{NumberSees};
ghost use Rattle.fills.specs.Takes.{Cancellable};

use account::{Change, Decision, Holding, Named, Seen, counted};
use entries::Entry;
use postings::{Posting, posted};
use resting::find;
use terms::{Contracts, OrderKind, Refusal};

pub fn cancel(seen: Seen) -> Result<Decision, Refusal>
    requires { NumberSees seen }
    ensures { (number : ℕ) → Wherever (Entry.Cancel number) seen (λ t a. result ≡ decided (cancel_verdict (named t a number)) (cancel_change (named t a number))) }
{
    let named = find(seen).ok_or(Refusal::NoSuchOrder)?;
    Ok(Decision::Changes(change(named)))
}

#[tactic(auto, unfolding(account::specs::Fills::cancel_change, rules::specs::Count::for_count))]
fn change(named: Named) -> Change
    requires { Cancellable named }
    ensures { result ≡ cancel_change named }
{
    let left = named.order.left.0;
    let before = named.holding;
    let freed = posted(named.sheet, Posting::HoldFreed(left as u64 * named.hold));
    Change {
        place: named.place,
        unit: named.unit,
        underlying: named.underlying as usize,
        holding: Holding {
            locked: before.locked,
            bought: Contracts(before.bought.0 - counted(left, named.order.is(OrderKind::BuyOpen))),
        },
        ..Change::of_sheet(freed, None, named.last)
    }
}
