// One step for every entry: it is decided on what it sees of tables and account, and what is decided is booked.
#![tactic(auto)]

ghost use Rattle.std.specs.Prelude.{◌≡◌};
ghost use Rattle.account.specs.Seen.{SeenOf, Wherever};
ghost use Rattle.account.specs.Sound.{Sound};
ghost use Rattle.account.specs.Steps.{step};
ghost use Rattle.steps.specs.Booked.{Rests, booked_by, decision_on};

use account::{Account, Decision, Outcome, Seen, Tables};
use day_end::ended;
use entries::{Entry, Figures};
use fills::{cancel, fill};
use gathering::see;
use orders::order;
use terms::Refusal;
use transfers::{deposit, drop, lock, pay, unlock, withdraw};

// Tables and account are two, and no struct that keeps `Sound`: a book holds tables too that a list's run refused (`run_list`).
pub fn step(tables: Tables, account: Account, entry: Entry, figures: Figures) -> Outcome
    requires { Sound tables account }
    ensures { result ≡ step tables account entry figures }
{
    let seen = see(&tables, &account, entry);
    booked(tables, account, figures, decide(seen, entry, &figures))
}

// Each kind is decided in its crate. Set-up has ended, so its records are out of their place.
pub fn decide(seen: Seen, entry: Entry, figures: &Figures) -> Result<Decision, Refusal>
    requires { SeenOf entry seen }
    ensures { Wherever entry seen (λ t a. result ≡ decision_on t a entry figures.now) }
{
    match entry {
        Entry::Deposit(amount) => deposit(seen.sheet, seen.last, amount),
        Entry::Withdraw(amount) => withdraw(seen.sheet, seen.waiting, seen.last, amount),
        Entry::Lock { underlying, units } => lock(seen, underlying, units),
        Entry::Unlock { underlying, units } => unlock(seen, underlying, units),
        Entry::Order(asked) => order(seen, asked),
        Entry::Fill(asked) => fill(seen, asked),
        Entry::Cancel { .. } => cancel(seen),
        Entry::DayEnd { n, m } => day_end::decide(seen, n, m, *figures),
        Entry::Pay => pay(seen.sheet, seen.waiting, seen.last),
        Entry::Drop => drop(seen.sheet, seen.waiting, seen.last),
        Entry::Underlying(_) | Entry::Contract(_) => Err(Refusal::OutOfPlace),
        // An arm of its own: a wrong edit has to be able to change the opening alone.
        Entry::Opening(_) => Err(Refusal::OutOfPlace),
    }
}

// The one place where what was decided is written. A refusal leaves tables and account as they were.
pub fn booked(
    tables: Tables,
    mut account: Account,
    figures: Figures,
    decision: Result<Decision, Refusal>,
) -> Outcome
    requires { Sound tables account × Rests tables account figures decision }
    ensures { result ≡ booked_by tables account figures decision }
{
    match decision {
        Err(why) => Outcome {
            verdict: Err(why),
            tables,
            account,
        },
        Ok(Decision::Changes(change)) => {
            account.apply(change);
            Outcome {
                verdict: Ok(()),
                tables,
                account,
            }
        }
        Ok(Decision::DayEnds) => ended(tables, account, figures),
    }
}
