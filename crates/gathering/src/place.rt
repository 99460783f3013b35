// The place of the order that a number names.
ghost use Rattle.std.specs.Prelude.{◌≡◌, ◌==◌, position};
ghost use Rattle.gathering.specs.Places.{place_among};

use account::Resting;

// No order has this number, though a free place holds it. A number and no Option, as the definition has it (`place_among`).
const NO_ORDER: u32 = 0;

// The order's place, or 32 where none has the number. A free place holds zero, which names no order: an entry that names none is not looked for.
#[tactic(auto, using(crate::proofs::Named::none_named))]
pub fn place_of(orders: &[Resting; terms::PLACES], number: u32) -> usize
    ensures { result ≡ place_among orders.now number }
{
    if number == NO_ORDER {
        return terms::PLACES;
    }
    first(orders, number).unwrap_or(terms::PLACES)
}

fn first(orders: &[Resting], number: u32) -> Option<usize>
    ensures { result ≡ position (λ order. order.number == number) orders.now }
{
    orders.iter().position(|order| order.number == number)
}
