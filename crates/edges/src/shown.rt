// What came out: the verdict, the money, the last accepted number, what waits to be paid out, and every row of the account that is not
// empty.
ghost use Rattle.account.specs.Sound.{SoundSheet};

use account::{Account, Holding, Resting};
use lines::output::{number, signed, text};
use money::available;
use terms::{Position, Verdict};

pub(crate) fn show(verdict: Verdict, account: &Account)
    requires { SoundSheet account.now.sheet }
{
    let sheet = account.sheet;
    text(b" =");
    number(u64::from(terms::number(&verdict)));
    signed(available(sheet));
    number(sheet.cash);
    number(sheet.premium);
    number(sheet.holds);
    number(sheet.margin);
    number(u64::from(account.last));
    if account.waiting != 0 {
        text(b" w");
        number(account.waiting);
    }
}

// The rows one after the other: positions, holdings, order places.
pub(crate) fn rows(account: &Account) {
    each(&account.positions, position);
    each(&account.holdings, holding);
    each(&account.orders, order);
}

fn each<T, F: Fn(usize, &T)>(rows: &[T], show: F)
    requires { F.IsAlwaysCallable show }
{
    for (i, row) in rows.iter().enumerate() {
        show(i, row);
    }
}

fn position(contract: usize, held: &Position) {
    if (held.long.0 | held.short.0 | held.covered.0) != 0 {
        text(b" p");
        number(contract as u64);
        number(u64::from(held.long.0));
        number(u64::from(held.short.0));
        number(u64::from(held.covered.0));
    }
}

fn holding(underlying: usize, stands: &Holding) {
    if stands.locked.0 != 0 || stands.bought.0 != 0 {
        text(b" u");
        number(underlying as u64);
        number(stands.locked.0);
        number(u64::from(stands.bought.0));
    }
}

fn order(place: usize, rests: &Resting) {
    if rests.number != 0 {
        text(b" o");
        number(place as u64);
        number(u64::from(rests.number));
        number(u64::from(rests.contract));
        number(u64::from(rests.kind));
        number(u64::from(rests.left.0));
        number(u64::from(rests.price));
    }
}
