// An entry that was read: its kind, the record's length, and its fields as the record has them.
use entries::{Contract, Entry, Figures, Fill, Order, Underlying};
use lines::output::{hex, number};

pub fn show(entry: Entry, length: usize, figures: Figures) {
    number(u64::from(u16::from(entry.kind())));
    number(length as u64);
    fields(entry, figures);
}

fn fields(entry: Entry, figures: Figures) {
    match entry {
        Entry::Deposit(amount) | Entry::Withdraw(amount) | Entry::Opening(amount) => hex(amount),
        Entry::Lock { underlying, units } | Entry::Unlock { underlying, units } => {
            hex(underlying);
            hex(units);
        }
        Entry::Order(entry) => order(entry),
        Entry::Fill(entry) => fill(entry),
        Entry::Cancel { number } => hex(number),
        Entry::DayEnd { n, m } => day_end(n, m, figures),
        Entry::Pay | Entry::Drop => (),
        Entry::Underlying(row) => underlying(row),
        Entry::Contract(row) => contract(row),
    }
}

fn order(entry: Order) {
    hex(entry.number);
    hex(entry.contract);
    hex(u16::from(entry.kind));
    hex(entry.quantity);
    hex(entry.price);
}

fn fill(entry: Fill) {
    hex(entry.number);
    hex(entry.quantity);
    hex(entry.price);
}

fn underlying(row: Underlying) {
    hex(u16::from(row.class));
    hex(row.close);
    hex(row.rights);
    hex(row.total);
    hex(row.daily);
}

fn contract(row: Contract) {
    hex(row.underlying);
    hex(u16::from(row.right));
    hex(row.strike);
    hex(row.unit);
    hex(row.settlement);
}

fn day_end(n: u16, m: u16, figures: Figures) {
    hex(n);
    hex(m);
    first(&figures.settlements, usize::from(n));
    first(&figures.closes, usize::from(m));
}

// The figures past the count are no part of the entry.
fn first(figures: &[u32], count: usize) {
    for figure in figures.iter().take(count) {
        hex(*figure);
    }
}
