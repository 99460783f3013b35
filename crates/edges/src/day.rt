// A day, booked line by line.
ghost use Rattle.std.specs.Prelude.{◌≤◌};
ghost use Rattle.account.specs.Sound.{Sound};

use crate::asked::{entry, figures};
use crate::shown::{rows, show};
use account::{Account, Tables};
use lines::input::{field, letter};
use lines::output::text;
use steps::step;
use terms::{Measure, Refusal, Verdict};

// Tables and account as the lines before left them.
#[derive(Drop)]
pub(crate) struct Day {
    tables: Tables,
    account: Account,
    ghost sound: { Sound tables account },
}

impl Day {
    pub(crate) fn opened(full: bool, cash: u64) -> Day
        requires { cash ≤ 1_000_000_000_000_000 }
    {
        Day {
            tables: fixed::tables(full),
            account: Account::opening(cash),
        }
    }

    // A line that begins with '#', or with nothing, is a remark.
    pub(crate) fn line(&mut self, l: &[u8]) {
        text(l);
        if letter(l, 0) != b'#' {
            show(self.booked(l), &self.account);
            rows(&self.account);
        }
        text(b"\n");
    }

    // Of all the words that a line can begin with, `open` alone has this second letter.
    fn booked(&mut self, l: &[u8]) -> Verdict {
        if letter(l, 1) == b'p' {
            return self.open(l);
        }
        let after = step(self.tables, self.account, entry(l), figures(l));
        *self = Day {
            tables: after.tables,
            account: after.account,
        };
        after.verdict
    }

    // Cash, then 1 for the full tables.
    fn open(&mut self, l: &[u8]) -> Verdict {
        let cash = field(l, 1);
        if !Measure::OpeningCash.allows(cash) {
            return Err(Refusal::OutOfRange);
        }
        *self = Day::opened(field::<u64>(l, 2) == 1, cash);
        Ok(())
    }
}
