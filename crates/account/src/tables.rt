// The tables of a book.
use entries::{Contract, Underlying};

// Arrays with their counts and no vectors: memory is fixed, and counts out of range can be handed in and are refused (`list_verdict`).
// The first m underlyings and the first n contracts are there, numbered from 0 in record order; the rows behind them are all zero.
#[derive(Clone, Copy)]
pub struct Tables {
    pub underlyings: [Underlying; terms::UNDERLYINGS],
    pub m: usize,
    pub contracts: [Contract; terms::CONTRACTS],
    pub n: usize,
}
