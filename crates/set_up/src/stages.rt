// A book and its stage.
ghost use Rattle.std.specs.Prelude.{◌≡◌};
ghost use Rattle.set_up.specs.Stages.{new_book, opened, waiting};

use account::{Account, Tables};
use entries::{Contract, Underlying};

// What a book waits for: underlyings until a contract is accepted, contracts until the opening is, then entries.
#[derive(Clone, Copy, PartialEq, Eq)]
pub enum Stage {
    Underlyings = 1,
    Contracts = 2,
    Entries = 3,
}

// Before the opening the account has nothing in it. No ghost field says that it is sound: `run_list` gives back a book on tables that it
// refused.
#[derive(Clone, Copy)]
pub struct Book {
    pub stage: Stage,
    pub tables: Tables,
    pub account: Account,
}

impl Book {
    pub fn new() -> Book
        ensures { result ≡ new_book }
    {
        let tables = Tables {
            underlyings: [Underlying::default(); terms::UNDERLYINGS],
            m: 0,
            contracts: [Contract::default(); terms::CONTRACTS],
            n: 0,
        };
        Book {
            stage: Stage::Underlyings,
            tables,
            account: Account::opening(0),
        }
    }

    // A book with its tables, which waits for its opening.
    pub fn waiting(tables: Tables) -> Book
        ensures { result ≡ waiting tables }
    {
        Book {
            stage: Stage::Contracts,
            tables,
            account: Account::opening(0),
        }
    }

    // A book that is open.
    pub fn opened(tables: Tables, cash: u64) -> Book
        ensures { result ≡ opened tables cash }
    {
        Book {
            stage: Stage::Entries,
            tables,
            account: Account::opening(cash),
        }
    }
}
