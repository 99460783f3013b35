// What an entry sees of tables and account, read where they lie.
ghost use Rattle.std.specs.Prelude.{◌≡◌};
ghost use Rattle.account.specs.Seen.{row_of, seen_by};

use crate::place::place_of;
use account::{Account, Seen, Tables};
use entries::Entry;
use terms::{CONTRACTS, PLACES, UNDERLYINGS};

pub fn see(tables: &Tables, account: &Account, entry: Entry) -> Seen
    ensures { result ≡ seen_by tables.now account.now entry }
{
    let place = place_of(&account.orders, entry.order_named());
    let i = row(PLACES, place);
    let order = account.orders[i];
    let c = row(CONTRACTS, entry.contract_named(order.contract) as usize);
    let contract = tables.contracts[c];
    let u = row(
        UNDERLYINGS,
        entry.underlying_named(contract.underlying) as usize,
    );
    Seen {
        n: tables.n,
        m: tables.m,
        sheet: account.sheet,
        waiting: account.waiting,
        last: account.last,
        free: account.free,
        place,
        order,
        contract,
        position: account.positions[c],
        closing: account.closing[c],
        limits: tables.underlyings[u],
        holding: account.holdings[u],
        running: account.running[u],
    }
}

// The row of a number, or the first where it names none: one that is not asked, as the definition has it (`row_of`).
pub fn row(rows: usize, number: usize) -> usize
    ensures { result ≡ row_of rows number }
{
    if number < rows { number } else { 0 }
}
