// A fill: 4, 7, 16, 15, or what it moves.
ghost use Rattle.std.specs.Prelude.{◌≡◌};
ghost use Rattle.account.specs.Changes.{decided};
ghost use Rattle.account.specs.Fills.{fill_change, fill_verdict, named, price_allowed};
ghost use Rattle.account.specs.Seen.{SeenOf, Wherever};
ghost use Rattle.fills.specs.Takes.{Exact, Fillable};

use crate::after::{moved, order_after, sheet_after};
use account::{Change, Decision, Named, Seen};
use entries::{Entry, Fill};
use money::premium_one;
use resting::{find, kind_of};
use terms::{Measure, OrderKind, Refusal};

pub fn fill(seen: Seen, fill: Fill) -> Result<Decision, Refusal>
    requires { SeenOf (Entry.Fill fill) seen }
    ensures { Wherever (Entry.Fill fill) seen (λ t a. result ≡ decided (fill_verdict (named t a fill.number) fill) (fill_change (named t a fill.number) fill)) }
{
    if !(Measure::Quantity.allows(fill.quantity as u64)
        & Measure::Price.allows(fill.price as u64))
    {
        return Err(Refusal::OutOfRange);
    }
    let named = find(seen).ok_or(Refusal::NoSuchOrder)?;
    decide(named, fill)
}

// The order is there and the fill's values are in their ranges. A sell brings money and may pass the ceiling; what a buy pays was held for it.
fn decide(named: Named, fill: Fill) -> Result<Decision, Refusal>
    requires { Fillable named fill }
    ensures { result ≡ decided (fill_verdict named fill) (fill_change named fill) }
{
    let order = named.order;
    let sheet = named.sheet;
    let kind = kind_of(order);
    let buys = kind.buys();
    let sum = fill.quantity as u64 * premium_one(fill.price, named.unit);
    if !((fill.quantity <= order.left.0) & price_allowed(buys, order.price, fill.price)) {
        return Err(Refusal::FillBarred);
    }
    if !(buys | Measure::Money.allows(sheet.cash + sheet.premium + sum)) {
        return Err(Refusal::CeilingPassed);
    }
    Ok(Decision::Changes(change(named, kind, fill, sum)))
}

// A buy may not fill above its price nor a sell below it.
fn price_allowed(buys: bool, limit: u32, price: u32) -> bool
    ensures { result ≡ price_allowed buys limit price }
{
    if buys { price <= limit } else { limit <= price }
}

#[tactic(auto, unfolding(account::specs::Fills::fill_change))]
fn change(named: Named, kind: OrderKind, fill: Fill, sum: u64) -> Change
    requires { Exact named fill kind sum }
    ensures { result ≡ fill_change named fill }
{
    let order = named.order;
    Change {
        sheet: sheet_after(named, kind, fill, sum),
        waiting: None,
        contract: order.contract as usize,
        position: moved(kind.moves(), kind.opens(), fill.quantity, named.position),
        place: named.place,
        order: order_after(order, fill.quantity),
        unit: named.unit,
        underlying: named.underlying as usize,
        holding: named.holding,
        last: named.last,
    }
}
