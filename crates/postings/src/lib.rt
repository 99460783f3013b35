// Postings: what moves money. The sheet is lent to each, which updates it where it stands.
#![tactic(auto)]

ghost use Rattle.std.specs.Prelude.{◌≡◌};
ghost use Rattle.postings.specs.Postings.{posted};
ghost use Rattle.postings.specs.Room.{Postable};

use account::Sheet;

// Cash comes in and goes out by deposits and withdrawals, and by premium received and paid; a covered open's premium is no cash before
// the day end, which joins the two, frees every hold but that of a payout which waits, and has the margin that was worked afresh.
#[derive(Clone, Copy)]
pub enum Posting {
    HoldTaken(u64),
    HoldFreed(u64),
    CashIn(u64),
    CashOut(u64),
    CoveredPremium(u64),
    MarginTaken(u64),
    MarginFreed(u64),
    DayEnd { margin: u64, waiting: u64 },
}

// The sheet after a posting, by value: an arm for each, since each moves another field of it.
fn after(sheet: Sheet, posting: Posting) -> Sheet
    requires { Postable sheet posting }
    ensures value { result ≡ posted sheet posting }
{
    match posting {
        Posting::HoldTaken(sum) => Sheet {
            holds: sheet.holds + sum,
            ..sheet
        },
        Posting::HoldFreed(sum) => Sheet {
            holds: sheet.holds - sum,
            ..sheet
        },
        Posting::CashIn(sum) => Sheet {
            cash: sheet.cash + sum,
            ..sheet
        },
        Posting::CashOut(sum) => Sheet {
            cash: sheet.cash - sum,
            ..sheet
        },
        Posting::CoveredPremium(sum) => Sheet {
            premium: sheet.premium + sum,
            ..sheet
        },
        Posting::MarginTaken(sum) => Sheet {
            margin: sheet.margin + sum,
            ..sheet
        },
        Posting::MarginFreed(sum) => Sheet {
            margin: sheet.margin - sum,
            ..sheet
        },
        Posting::DayEnd { margin, waiting } => Sheet {
            cash: sheet.cash + sheet.premium,
            premium: 0,
            holds: waiting,
            margin,
        },
    }
}

// The posting itself: the sheet is lent, and holds the new sums afterwards.
pub fn post(sheet: &mut Sheet, posting: Posting)
    requires { Postable sheet.old posting }
    ensures { sheet.new ≡ posted sheet.old posting }
{
    *sheet = after(*sheet, posting);
}

// A sheet in, a posting, a sheet out: the one function that lends a sheet.
pub fn posted(sheet: Sheet, posting: Posting) -> Sheet
    requires { Postable sheet posting }
    ensures { result ≡ posted sheet posting }
{
    let mut lent = sheet;
    post(&mut lent, posting);
    lent
}
