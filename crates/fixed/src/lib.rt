// The two tables that `edges` and `runs` book on: small ones, and full ones with every row taken.
#![tactic(auto)]

ghost use Rattle.std.specs.Prelude.{◌≡◌, ℕ, cond, true, ◌≤◌, ◌<◌, get_or, length};
ghost use Rattle.account.specs.Rows.{no_contract, no_underlying};
ghost use Rattle.account.specs.Sound.{SoundTables, contract_allowed, underlying_allowed};
ghost use Rattle.fixed.specs.Rows.{Filled, count, in_turn, right_of};

use account::Tables;
use entries::{Contract, Underlying};
use terms::{Class, Right};

pub fn tables(full: bool) -> Tables
    ensures { SoundTables result }
{
    let m = rows(full, 3, terms::UNDERLYINGS);
    let n = rows(full, 5, terms::CONTRACTS);
    Tables {
        underlyings: underlyings(full, m),
        m,
        contracts: contracts(full, n),
        n,
    }
}

fn rows(full: bool, few: usize, all: usize) -> usize
    ensures { result ≡ cond full all few }
{
    if full { all } else { few }
}

// Each row by its number.
fn fill<T: Copy, F: Fn(usize) -> T>(rows: &mut [T], row_of: F)
    requires { (i : ℕ) → i < length rows.old → F.pre row_of i }
    ensures { (i : ℕ) (none : T) → i < length rows.old → F.post row_of i (get_or rows.new i none) }
{
    for (i, row) in rows.iter_mut().enumerate() {
        *row = row_of(i);
    }
}

fn underlyings(full: bool, m: usize) -> [Underlying; terms::UNDERLYINGS]
    requires { m ≤ 8 }
    ensures { Filled 8 no_underlying (λ p. underlying_allowed p ≡ true) result m }
{
    let mut rows = [Underlying::default(); terms::UNDERLYINGS];
    fill(&mut rows[..m], |u| underlying_of(full, u));
    rows
}

// Rights and total can be reached in underlying 0 and daily in underlying 1; underlying 2 leaves room for what the limits are not to
// disturb. Those of the full tables are all alike.
fn underlying_of(full: bool, u: usize) -> Underlying
    ensures { underlying_allowed result ≡ true }
{
    if full {
        return underlying(Class::Fund, 30_000, 60, 90, 70);
    }
    match u {
        0 => underlying(Class::Fund, 25_000, 20, 50, 30),
        1 => underlying(Class::Stock, 100_000, 10_000, 10_000, 100),
        _ => underlying(Class::Fund, 50, 10_000, 10_000, 10_000),
    }
}

fn contracts(full: bool, n: usize) -> [Contract; terms::CONTRACTS]
    requires { n ≤ 64 }
    ensures { Filled 64 no_contract (λ k. contract_allowed (count full) k ≡ true) result n }
{
    let mut rows = [Contract::default(); terms::CONTRACTS];
    fill(&mut rows[..n], |c| contract_of(full, c as u16));
    rows
}

fn contract_of(full: bool, c: u16) -> Contract
    requires { c < 64 }
    ensures { contract_allowed (count full) result ≡ true }
{
    if full { in_turn(c) } else { few(c) }
}

fn few(c: u16) -> Contract
    ensures { contract_allowed 3 result ≡ true }
{
    match c {
        0 => contract(0, Right::Call, 26_000, 10_000, 500),
        1 => contract(0, Right::Put, 24_000, 10_000, 400),
        2 => contract(1, Right::Call, 100_000, 5_000, 5_000),
        3 => contract(1, Right::Put, 100_000, 5_000, 5_000),
        _ => contract(2, Right::Call, 53, 100, 0),
    }
}

// On 8 underlyings in turn, each with a strike, a unit and a settlement of its own.
fn in_turn(c: u16) -> Contract
    requires { c < 64 }
    ensures { result ≡ in_turn c }
{
    let k = u32::from(c);
    contract(c % 8, right(c), 20_000 + 300 * k, 100 * (1 + k), 10 * k)
}

fn right(c: u16) -> Right
    ensures { result ≡ right_of c }
{
    if c < 32 { Right::Call } else { Right::Put }
}

// A row on one line, so that the tables above read as tables: with its fields named each row would take seven.
fn underlying(class: Class, close: u32, rights: u16, total: u16, daily: u16) -> Underlying
    ensures { result ≡ record { class = class; close = close; rights = rights; total = total; daily = daily } }
{
    Underlying {
        class,
        close,
        rights,
        total,
        daily,
    }
}

fn contract(underlying: u16, right: Right, strike: u32, unit: u32, settlement: u32) -> Contract
    ensures { result ≡ record { underlying = underlying; right = right; strike = strike; unit = unit; settlement = settlement } }
{
    Contract {
        underlying,
        right,
        strike,
        unit,
        settlement,
    }
}
