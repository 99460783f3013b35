// What an accepted order changes.
ghost use Rattle.std.specs.Prelude.{◌≡◌, ◌+◌, ◌^◌, ◌<◌};
ghost use Rattle.account.specs.Orders.{order_change};

use account::{Change, Facts, Holding, Resting, counted};
use entries::Order;
use postings::{Posting, posted};
use terms::{Contracts, OrderKind};

pub(crate) fn change(facts: Facts, order: Order) -> Change
    requires { (facts.sheet.holds + facts.hold < 2 ^ 64) × (facts.holding.bought.0 + order.quantity < 2 ^ 32) }
    ensures { result ≡ order_change facts order }
{
    let before = facts.holding;
    let held = posted(facts.sheet, Posting::HoldTaken(facts.hold));
    let rested = Resting {
        number: order.number,
        contract: order.contract,
        kind: u16::from(order.kind),
        left: Contracts(order.quantity),
        price: order.price,
    };
    Change {
        place: facts.place,
        order: rested,
        unit: facts.unit,
        underlying: facts.underlying as usize,
        holding: Holding {
            locked: before.locked,
            bought: Contracts(
                before.bought.0 + counted(order.quantity, rested.is(OrderKind::BuyOpen)),
            ),
        },
        ..Change::of_sheet(held, None, order.number)
    }
}
