// Deposits, which are judged by the sheet and change it alone.
ghost use Rattle.std.specs.Prelude.{◌≡◌};
ghost use Rattle.account.specs.Changes.{decided};
ghost use Rattle.account.specs.Sound.{SoundSheet};
ghost use Rattle.account.specs.Transfers.{deposit_change, deposit_verdict};

use account::{Change, Decision, Sheet};
use postings::{Posting, posted};
use terms::{Measure, Refusal};

#[tactic(auto, unfolding(account::specs::Transfers::deposit_verdict, account::specs::Transfers::deposit_change))]
pub fn deposit(sheet: Sheet, last: u32, amount: u64) -> Result<Decision, Refusal>
    requires { SoundSheet sheet }
    ensures { result ≡ decided (deposit_verdict sheet amount) (deposit_change sheet last amount) }
{
    if !Measure::Transfer.allows(amount) {
        return Err(Refusal::OutOfRange);
    }
    if !Measure::Money.allows(sheet.cash + sheet.premium + amount) {
        return Err(Refusal::CeilingPassed);
    }
    let after = posted(sheet, Posting::CashIn(amount));
    Ok(Decision::Changes(Change::of_sheet(after, None, last)))
}
