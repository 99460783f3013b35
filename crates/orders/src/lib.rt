// An order: its facts gathered, the verdict on them, and what an accepted one changes.
#![tactic(auto)]

mod change;
mod checks;

ghost use Rattle.std.specs.Prelude.{◌≡◌};
ghost use Rattle.account.specs.Changes.{decided};
ghost use Rattle.account.specs.Checks.{order_verdict};
ghost use Rattle.account.specs.Orders.{facts_of, order_change};
ghost use Rattle.account.specs.Seen.{SeenOf, Wherever};

use account::{Decision, Seen};
use change::change;
use checks::verdict;
use entries::{Entry, Order};
use gathering::gather;
use terms::Refusal;

pub fn order(seen: Seen, order: Order) -> Result<Decision, Refusal>
    requires { SeenOf (Entry.Order order) seen }
    ensures { Wherever (Entry.Order order) seen (λ t a. result ≡ decided (order_verdict (facts_of t a order) order) (order_change (facts_of t a order) order)) }
{
    let facts = gather(seen, order);
    verdict(facts, order)?;
    Ok(Decision::Changes(change(facts, order)))
}
