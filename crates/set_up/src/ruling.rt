// What a record of a book comes to, at the book's stage. Nothing is written yet.
ghost use Rattle.std.specs.Prelude.{◌≡◌};
ghost use Rattle.set_up.specs.Rulings.{of_decision, renewing, ruling_on};
ghost use Rattle.set_up.specs.Sound.{BookSeen, WhereverBook};
ghost use Rattle.set_up.specs.Stages.{in_place};

use crate::stages::Stage;
use account::{Change, Decision, Seen};
use entries::{Contract, Entry, Figures, Underlying};
use rows::{contract_allowed, underlying_allowed};
use steps::decide;
use terms::{Measure, Refusal};

// What an accepted record comes to: what an entry changes, or what makes the book anew. A change is written where the account lives; a
// book that is made anew comes back whole, which is seldom.
#[derive(Clone, Copy)]
pub enum Ruling {
    Changes(Change),
    Renews(Renewal),
}

#[derive(Clone, Copy)]
pub enum Renewal {
    Underlying(Underlying),
    Contract(Contract),
    Opening(u64),
    DayEnds,
}

// What is decided about an entry.
fn of_decision(decision: Result<Decision, Refusal>) -> Result<Ruling, Refusal>
    ensures { result ≡ of_decision decision }
{
    Ok(match decision? {
        Decision::Changes(change) => Ruling::Changes(change),
        Decision::DayEnds => Ruling::Renews(Renewal::DayEnds),
    })
}

// A record at the book's stage, by what it sees of the book.
pub fn rule(stage: Stage, seen: Seen, entry: Entry, figures: &Figures) -> Result<Ruling, Refusal>
    requires { BookSeen stage entry seen }
    ensures { WhereverBook stage entry seen (λ b. result ≡ ruling_on b entry figures.now) }
{
    if !in_place(stage, u16::from(entry.kind())) {
        return Err(Refusal::OutOfPlace);
    }
    match entry {
        // A row takes the next number, as long as there is one.
        Entry::Underlying(row) => renews(
            underlying_allowed(row) & (seen.m < terms::UNDERLYINGS),
            Renewal::Underlying(row),
        ),
        Entry::Contract(row) => renews(
            contract_allowed(seen.m, row) & (seen.n < terms::CONTRACTS),
            Renewal::Contract(row),
        ),
        Entry::Opening(cash) => renews(Measure::OpeningCash.allows(cash), Renewal::Opening(cash)),
        _ => of_decision(decide(seen, entry, figures)),
    }
}

// By the paper's numbers, as the definition has them (`in_place`).
fn in_place(stage: Stage, kind: u16) -> bool
    ensures { result ≡ in_place stage kind }
{
    match stage {
        Stage::Underlyings => (16..=17).contains(&kind),
        Stage::Contracts => (17..=18).contains(&kind),
        Stage::Entries => (1..=10).contains(&kind),
    }
}

// A record of set-up makes the book anew, if its values are allowed.
fn renews(allowed: bool, renewal: Renewal) -> Result<Ruling, Refusal>
    ensures { result ≡ renewing allowed renewal }
{
    if allowed {
        Ok(Ruling::Renews(renewal))
    } else {
        Err(Refusal::OutOfRange)
    }
}
