// A book after a record: changed by an entry, or made anew by a row of its tables, by its opening, or by a day end.
ghost use Rattle.std.specs.Prelude.{◌≡◌, ◌<◌};
ghost use Rattle.account.specs.Sound.{Sound};
ghost use Rattle.day_end.specs.Ended.{FiguresTaken};
ghost use Rattle.set_up.specs.Rulings.{RenewsOn, RestsOn, renewed_by, ruled_by, with_day_end};
ghost use Rattle.set_up.specs.Sound.{SoundBook};
ghost use Rattle.set_up.specs.Stages.{with_contract, with_underlying};

use crate::ruling::{Renewal, Ruling};
use crate::stages::{Book, Stage};
use day_end::ended;
use entries::{Contract, Figures, Underlying};
use terms::Refusal;

impl Book {
    // The one place that writes what a record comes to: nothing where it is refused.
    pub fn enter(&mut self, figures: &Figures, ruling: Result<Ruling, Refusal>)
        requires { SoundBook self.old × RestsOn self.old figures.now ruling }
        ensures { self.new ≡ ruled_by self.old figures.now ruling }
    {
        match ruling {
            Err(_) => {}
            Ok(Ruling::Changes(change)) => self.account.apply(change),
            Ok(Ruling::Renews(renewal)) => self.renew(figures, renewal),
        }
    }

    // A function of its own when compiled, too: the compiler sets the arrays of a function to zero where it begins, and a record that makes
    // no book anew would pay for them.
    #[inline(never)]
    fn renew(&mut self, figures: &Figures, renewal: Renewal)
        requires { SoundBook self.old × RenewsOn self.old figures.now renewal }
        ensures { self.new ≡ renewed_by self.old figures.now renewal }
    {
        *self = renewed(*self, *figures, renewal);
    }
}

pub fn renewed(book: Book, figures: Figures, renewal: Renewal) -> Book
    requires { SoundBook book × RenewsOn book figures renewal }
    ensures { result ≡ renewed_by book figures renewal }
{
    match renewal {
        Renewal::Underlying(row) => with_underlying(book, row),
        Renewal::Contract(row) => with_contract(book, row),
        Renewal::Opening(cash) => Book::opened(book.tables, cash),
        Renewal::DayEnds => with_day_end(book, figures),
    }
}

// Not one function with `with_contract`: each has its own table, count and stage, and nothing else.
fn with_underlying(book: Book, row: Underlying) -> Book
    requires { book.tables.m < 8 }
    ensures { result ≡ with_underlying book row }
{
    let mut tables = book.tables;
    tables.underlyings[tables.m] = row;
    tables.m += 1;
    Book {
        stage: Stage::Underlyings,
        tables,
        ..book
    }
}

fn with_contract(book: Book, row: Contract) -> Book
    requires { book.tables.n < 64 }
    ensures { result ≡ with_contract book row }
{
    let mut tables = book.tables;
    tables.contracts[tables.n] = row;
    tables.n += 1;
    Book {
        stage: Stage::Contracts,
        tables,
        ..book
    }
}

// The day of an open book ends.
fn with_day_end(book: Book, figures: Figures) -> Book
    requires { Sound book.tables book.account × FiguresTaken book.tables figures }
    ensures { result ≡ with_day_end book figures }
{
    let after = ended(book.tables, book.account, figures);
    Book {
        stage: Stage::Entries,
        tables: after.tables,
        account: after.account,
    }
}
