// Writing an entry's record into lent bytes.
#![tactic(auto)]

mod numbers;

ghost use Rattle.std.specs.Prelude.{◌≡◌, MatchResult, true, false, [], ◌∷◌, ◌+◌, ◌*◌, ◌≤◌, length};
ghost use Rattle.std.proofs.lemmas.List.Edits.{sets};
ghost use Rattle.entries.specs.Entries.{kind_of, fields_in, figures_in};
ghost use Rattle.entries.specs.Numbers.{packed};
ghost use Rattle.entries.specs.Table.{code_of, fields_of, figures_of, length_of};
ghost use Rattle.terms.specs.declared.refusal.Refusal.TheVariants.{Misshapen};
ghost use Rattle.writing.specs.Writing.{record_of, length_for, counts_barred, written_for, buffer_after};

use entries::{Contract, Counts, Entry, Figures, Fill, Kind, Order, Underlying};
use numbers::{Number, puts4};
use terms::Refusal;

// How many bytes were written, or why none was.
#[tactic(auto, using(entries::proofs::Limits::counts_inside, entries::proofs::Runs::total_fours), unfolding(crate::specs::Writing::written_for))]
pub fn write(entry: Entry, figures: Figures, buffer: &mut [u8]) -> Result<usize, Refusal>
    ensures answer { result ≡ written_for entry (length buffer.old) }
    ensures contents { buffer.new ≡ buffer_after result (record_of entry figures) buffer.old }
{
    let length = length(entry)?;
    if buffer.len() < usize::from(length) {
        return Err(Refusal::BufferTooShort);
    }
    put_head(buffer, entry, length);
    if let Entry::DayEnd { n, m } = entry {
        put_figures(buffer, figures, Counts { n, m });
    }
    Ok(usize::from(length))
}

// How long an entry's record is; a day end with n or m out of range has none.
#[tactic(auto, using(entries::proofs::Limits::counts_inside, entries::proofs::Runs::total_fours))]
fn length(entry: Entry) -> Result<u16, Refusal>
    ensures { MatchResult result (λ len. (counts_barred entry ≡ false) × (len ≡ length_for entry)) (λ why. (counts_barred entry ≡ true) × (why ≡ Misshapen)) }
{
    let Entry::DayEnd { n, m } = entry else {
        return Ok(entry.kind().length());
    };
    let counts = Counts { n, m };
    if !counts.allowed() {
        return Err(Refusal::Misshapen);
    }
    Ok(counts.length() as u16)
}

// This function and those below ask for the length of their own kinds, which one type over all kinds would say in no fewer words.
#[tactic(auto, using(entries::proofs::Runs::sets_append, entries::proofs::LittleEndian::length_bytes))]
fn put_head(buffer: &mut [u8], entry: Entry, size: u16)
    requires { length_of (kind_of entry) 0 0 ≤ length buffer.old }
    ensures { buffer.new ≡ sets buffer.old 0 (packed (2 ∷ 2 ∷ fields_of (kind_of entry)) (size ∷ code_of (kind_of entry) ∷ fields_in entry)) }
{
    size.put(buffer, 0);
    u16::from(entry.kind()).put(buffer, 2);
    put_fields(buffer, entry);
}

#[tactic(auto, using(entries::proofs::Runs::sets_append, entries::proofs::LittleEndian::length_bytes))]
fn put_fields(buffer: &mut [u8], entry: Entry)
    requires { length_of (kind_of entry) 0 0 ≤ length buffer.old }
    ensures { buffer.new ≡ sets buffer.old 4 (packed (fields_of (kind_of entry)) (fields_in entry)) }
{
    match entry {
        Entry::Deposit(amount) | Entry::Withdraw(amount) | Entry::Opening(amount) => {
            amount.put(buffer, 4);
        }
        Entry::Lock { underlying, units } | Entry::Unlock { underlying, units } => {
            underlying.put(buffer, 4);
            units.put(buffer, 6);
        }
        Entry::Order(order) => put_order(buffer, order),
        Entry::Fill(fill) => {
            fill.number.put(buffer, 4);
            fill.quantity.put(buffer, 8);
            fill.price.put(buffer, 12);
        }
        Entry::Cancel { number } => number.put(buffer, 4),
        Entry::DayEnd { n, m } => {
            n.put(buffer, 4);
            m.put(buffer, 6);
        }
        Entry::Pay | Entry::Drop => {}
        Entry::Underlying(row) => put_underlying(buffer, row),
        Entry::Contract(row) => put_contract(buffer, row),
    }
}

#[tactic(auto, using(entries::proofs::Runs::sets_append, entries::proofs::LittleEndian::length_bytes))]
fn put_order(buffer: &mut [u8], order: Order)
    requires { length_of Kind.Order 0 0 ≤ length buffer.old }
    ensures { buffer.new ≡ sets buffer.old 4 (packed (fields_of Kind.Order) (fields_in (Entry.Order order))) }
{
    order.number.put(buffer, 4);
    order.contract.put(buffer, 8);
    u16::from(order.kind).put(buffer, 10);
    order.quantity.put(buffer, 12);
    order.price.put(buffer, 16);
}

// This and `put_contract` are alike in shape alone: each has its own fields and codes.
#[tactic(auto, using(entries::proofs::Runs::sets_append, entries::proofs::LittleEndian::length_bytes))]
fn put_underlying(buffer: &mut [u8], row: Underlying)
    requires { length_of Kind.Underlying 0 0 ≤ length buffer.old }
    ensures { buffer.new ≡ sets buffer.old 4 (packed (fields_of Kind.Underlying) (fields_in (Entry.Underlying row))) }
{
    u16::from(row.class).put(buffer, 4);
    row.close.put(buffer, 6);
    row.rights.put(buffer, 10);
    row.total.put(buffer, 12);
    row.daily.put(buffer, 14);
}

#[tactic(auto, using(entries::proofs::Runs::sets_append, entries::proofs::LittleEndian::length_bytes))]
fn put_contract(buffer: &mut [u8], row: Contract)
    requires { length_of Kind.Contract 0 0 ≤ length buffer.old }
    ensures { buffer.new ≡ sets buffer.old 4 (packed (fields_of Kind.Contract) (fields_in (Entry.Contract row))) }
{
    row.underlying.put(buffer, 4);
    u16::from(row.right).put(buffer, 6);
    row.strike.put(buffer, 8);
    row.unit.put(buffer, 12);
    row.settlement.put(buffer, 16);
}

fn put_figures(buffer: &mut [u8], figures: Figures, counts: Counts)
    requires { (counts.n ≤ 64) × (counts.m ≤ 8) × (8 + 4 * (counts.n + counts.m) ≤ length buffer.old) }
    ensures { buffer.new ≡ sets buffer.old 8 (packed (figures_of counts.n counts.m) (figures_in counts.n counts.m figures)) }
{
    let n = counts.n as usize;
    let m = counts.m as usize;
    puts4(buffer, 8, &figures.settlements[..n]);
    puts4(buffer, 8 + 4 * n, &figures.closes[..m]);
}
