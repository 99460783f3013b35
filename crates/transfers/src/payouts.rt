// Payouts in two steps: asked for, then paid or dropped. They are judged by the sheet and what waits, and change these alone: the three
// parameters are those of their definitions (`pay_change`).
ghost use Rattle.std.specs.Prelude.{◌≡◌, cond, eqb, Ok, Err};
ghost use Rattle.postings.specs.Postings.{posted};
ghost use Rattle.postings.specs.declared.Posting.TheVariants as Posting;
ghost use Rattle.terms.specs.declared.refusal.Refusal.TheVariants as Refusal;
ghost use Rattle.account.specs.Changes.{decided};
ghost use Rattle.account.specs.Sound.{SoundPayout, SoundSheet};
ghost use Rattle.account.specs.Transfers.{drop_change, pay_change, payout_verdict, withdraw_change, withdraw_verdict};

use account::{Change, Decision, Sheet};
use money::{available, within};
use postings::{Posting, posted};
use terms::{Measure, Refusal};

// What is asked for is held while it waits, so that no order can have it before the bank has paid.
#[tactic(auto, unfolding(account::specs::Transfers::withdraw_verdict, account::specs::Transfers::withdraw_change))]
pub fn withdraw(sheet: Sheet, waiting: u64, last: u32, amount: u64) -> Result<Decision, Refusal>
    requires { SoundSheet sheet }
    ensures { result ≡ decided (withdraw_verdict sheet waiting amount) (withdraw_change sheet last amount) }
{
    if !Measure::Transfer.allows(amount) {
        return Err(Refusal::OutOfRange);
    }
    if waiting != 0 {
        return Err(Refusal::AlreadyWaiting);
    }
    if !within(amount, available(sheet)) {
        return Err(Refusal::AvailablePassed);
    }
    let held = posted(sheet, Posting::HoldTaken(amount));
    Ok(Decision::Changes(Change::of_sheet(held, Some(amount), last)))
}

#[tactic(auto, unfolding(account::specs::Transfers::payout_verdict, account::specs::Transfers::pay_change))]
pub fn pay(sheet: Sheet, waiting: u64, last: u32) -> Result<Decision, Refusal>
    requires { SoundPayout sheet waiting }
    ensures { result ≡ decided (payout_verdict waiting) (pay_change sheet last waiting) }
{
    let freed = freed(sheet, waiting)?;
    let paid = posted(freed, Posting::CashOut(waiting));
    Ok(Decision::Changes(Change::of_sheet(paid, Some(0), last)))
}

#[tactic(auto, unfolding(account::specs::Transfers::payout_verdict, account::specs::Transfers::drop_change))]
pub fn drop(sheet: Sheet, waiting: u64, last: u32) -> Result<Decision, Refusal>
    requires { SoundPayout sheet waiting }
    ensures { result ≡ decided (payout_verdict waiting) (drop_change sheet last waiting) }
{
    let dropped = freed(sheet, waiting)?;
    Ok(Decision::Changes(Change::of_sheet(dropped, Some(0), last)))
}

// The sheet with what waits held no longer, if anything waits.
fn freed(sheet: Sheet, waiting: u64) -> Result<Sheet, Refusal>
    requires { SoundPayout sheet waiting }
    ensures { result ≡ cond (eqb waiting 0) (Err Refusal.NothingWaiting) (Ok (posted sheet (Posting.HoldFreed waiting))) }
{
    if waiting == 0 {
        return Err(Refusal::NothingWaiting);
    }
    Ok(posted(sheet, Posting::HoldFreed(waiting)))
}
