// The desk: the sheet's book, once its kind is named.
ghost use Rattle.std.specs.Prelude.{◌≡◌};
ghost use Rattle.forms.specs.Orders.{meant};
ghost use Rattle.tally.specs.Desks.{on_bare, laid_turn};

use book::Book;
use forms::{FormFault, Order};
use kinds::{Byte, Small, Wide};

mod following;

#[derive(Drop)]
pub enum Desk {
    // no kind is named yet
    Bare,
    Small(Book<Small>),
    Wide(Book<Wide>),
    Byte(Book<Byte>),
}

// The desk that an order lays: a new book of the kind that it names. The kind comes first.
impl TryFrom<Order> for Desk {
    type Error = FormFault;

    ghost try_from_gives = { λ order desk. laid_turn desk ≡ on_bare (meant order) };

    fn try_from(order: Order) -> Result<Desk, FormFault> {
        match order {
            Order::Kind { number: 1 } => Ok(Desk::Small(Book::new())),
            Order::Kind { number: 2 } => Ok(Desk::Wide(Book::new())),
            Order::Kind { number: 3 } => Ok(Desk::Byte(Book::new())),
            _ => Err(FormFault::WrongKind),
        }
    }
}
