// What a resting order is judged by.
ghost use Rattle.std.specs.Prelude.{◌≡◌, ℕ, ◌<◌};
ghost use Rattle.account.specs.Fills.{named, place_of};
ghost use Rattle.account.specs.Money.{kind_of};
ghost use Rattle.account.specs.Seen.{Wherever};

use account::{Named, Resting, Seen};
use entries::Entry;
use money::{hold_one, margin_one};
use terms::OrderKind;

pub(crate) fn named_at(seen: Seen) -> Named
    ensures { (number : ℕ) → Wherever (Entry.Cancel number) seen (λ t a. place_of a number < 32 → result ≡ named t a number) }
{
    let order = seen.order;
    let contract = seen.contract;
    let row = seen.limits;
    Named {
        place: seen.place,
        order,
        position: seen.position,
        unit: contract.unit,
        underlying: contract.underlying,
        holding: seen.holding,
        hold: hold_one(kind_of(order), contract, row, order.price),
        margin: margin_one(contract, row),
        sheet: seen.sheet,
        last: seen.last,
    }
}

pub fn kind_of(order: Resting) -> OrderKind
    ensures { result ≡ kind_of order }
{
    OrderKind::try_from(order.kind).unwrap_or(OrderKind::BuyOpen)
}
