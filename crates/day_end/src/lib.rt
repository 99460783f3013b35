// The day end: refused whole with 4, or figures installed and the account ended on them.
#![tactic(auto)]

mod after;
mod figures;

ghost use Rattle.std.specs.Prelude.{◌≡◌};
ghost use Rattle.account.specs.Sound.{Sound};
ghost use Rattle.day_end.specs.Ended.{FiguresTaken, ended_on};

use account::{Account, Outcome, Tables};
use after::account_after;
use entries::Figures;
pub use figures::decide;
use figures::installed;

// The day is ended on figures that the tables take.
pub fn ended(tables: Tables, account: Account, figures: Figures) -> Outcome
    requires { Sound tables account × FiguresTaken tables figures }
    ensures { result ≡ ended_on tables account figures }
{
    let new = installed(tables, figures);
    Outcome {
        verdict: Ok(()),
        tables: new,
        account: account_after(new, account),
    }
}
