// The words of an example. It names a listed code; any other stands for the last word, since an entry and a margin are asked with words.
// One function over `TryFrom` would take the last word too, and be `unwrap_or` again.
use terms::{Class, OrderKind, Right};

pub fn class(code: u16) -> Class {
    Class::try_from(code).unwrap_or(Class::Fund)
}

pub fn right(code: u16) -> Right {
    Right::try_from(code).unwrap_or(Right::Put)
}

pub fn order_kind(code: u16) -> OrderKind {
    OrderKind::try_from(code).unwrap_or(OrderKind::CoveredClose)
}
