// The account after a day end, one contract's three counts at a time.
ghost use Rattle.std.specs.Prelude.{◌≡◌, map, ◌^◌, ◌<◌};
ghost use Rattle.rules.specs.Netting.{netted};
ghost use Rattle.account.specs.DayEnd.{day_ended};
ghost use Rattle.account.specs.Sound.{Sound};
ghost use Rattle.day_end.specs.Passes.{HeldFits, Summed, with_held, with_units, worked_to};

use account::{ALL_FREE, Account, Holding, Resting, Running, Tables};
use money::margin_one;
use postings::{Posting, posted};
use rules::net;
use terms::{Contracts, Position, Units};

// What a pass over the contracts works out, at the figures of the tables.
#[derive(Clone, Copy)]
struct Worked {
    margin: u64,
    holdings: [Holding; terms::UNDERLYINGS],
    running: [Running; terms::UNDERLYINGS],
}

// Orders are cancelled and their holds freed, a payout that waits is held on; positions are netted and margin worked at the new
// figures; covered premium joins cash, daily counts are zero, and the units that cover stay locked. What is kept is set anew.
pub(crate) fn account_after(tables: Tables, account: Account) -> Account
    requires { Sound tables (day_ended tables account) }
    ensures { result ≡ day_ended tables account }
{
    let positions = net_all(account.positions);
    let Worked {
        margin,
        holdings,
        running,
    } = work_out(tables, positions);
    Account {
        sheet: posted(
            account.sheet,
            Posting::DayEnd {
                margin,
                waiting: account.waiting,
            },
        ),
        positions,
        orders: [Resting::free(); terms::PLACES],
        holdings,
        running,
        closing: [Position::default(); terms::CONTRACTS],
        free: ALL_FREE,
        ..account
    }
}

// Where they lie: `positions.map(net)` takes three times as long, since an array's `map` moves each out and in.
fn net_all(positions: [Position; terms::CONTRACTS]) -> [Position; terms::CONTRACTS]
    ensures { result ≡ map netted positions }
{
    let mut after = positions;
    for position in after.iter_mut() {
        *position = net(*position);
    }
    after
}

// The margin; the units that cover, which stay locked for their underlying; and what is held there.
fn work_out(tables: Tables, positions: [Position; terms::CONTRACTS]) -> Worked
    requires { Summed tables positions }
    ensures { result ≡ worked_to tables positions tables.n }
{
    let mut margin = 0;
    let mut holdings = [Holding::default(); terms::UNDERLYINGS];
    let mut running = [Running::default(); terms::UNDERLYINGS];
    for (contract, position) in tables.contracts[..tables.n].iter().zip(&positions) {
        let u = contract.underlying as usize;
        margin += position.short.0 as u64 * margin_one(*contract, tables.underlyings[u]);
        add_units(&mut holdings[u], position.covered, contract.unit);
        add_held(&mut running[u], *position, contract.unit);
    }
    Worked {
        margin,
        holdings,
        running,
    }
}

fn add_units(holding: &mut Holding, covered: Contracts, unit: u32)
    requires { (with_units holding.old covered unit).locked.0 < 2 ^ 64 }
    ensures { holding.new ≡ with_units holding.old covered unit }
{
    holding.locked.0 += covered.units(unit).0;
}

// What is held of one contract more joins the totals of its underlying; no order rests.
fn add_held(running: &mut Running, position: Position, unit: u32)
    requires { HeldFits (with_held running.old position unit) }
    ensures { running.new ≡ with_held running.old position unit }
{
    running.long.0 += position.long.0;
    running.total.0 += position.long.0 + position.short.0 + position.covered.0;
    running.taken.0 += position.covered.units(unit).0;
}
