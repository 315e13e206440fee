// The items of a form.
ghost use Rattle.std.specs.Prelude.{◌≡◌, [], ◌∷◌};
ghost use Rattle.reading.specs.Told.{told};
ghost use Rattle.forms.specs.Lists.{taken_in};
ghost use Rattle.forms.specs.Orders.{item_of, items_of, number_in, list_in, asks, order_meant};

use crate::numbers::Numbers;
use crate::order::Order;
use crate::word::Word;
use reading::{Token, value};

// The value of an item that is a number.
fn number(item: &Token<'_>) -> Option<u32>
    ensures { result ≡ number_in (item_of (told item.now)) }
{
    match item {
        Token::Number(part) => value(part.bytes),
        _ => None,
    }
}

// The numbers of an item that is a list.
fn list(item: &Token<'_>) -> Option<Numbers>
    ensures { taken_in result ≡ list_in (item_of (told item.now)) }
{
    match item {
        Token::List(part) => Numbers::of(part.bytes),
        _ => None,
    }
}

impl Word {
    // What the word asks for with the items; none where they are not its own.
    pub(crate) fn asks(self, items: &[Token<'_>]) -> Option<Order>
        ensures { order_meant result ≡ asks self (items_of items.now) }
    {
        let order = match (self, items) {
            (Word::Kind, [which]) => Order::Kind {
                number: number(which)?,
            },
            (Word::Set, [n, k]) => Order::Set {
                n: number(n)?,
                k: number(k)?,
            },
            (Word::Enter, [line, house, figure, strip]) => Order::Enter {
                line: number(line)?,
                house: number(house)?,
                figure: number(figure)?,
                strip: list(strip)?,
            },
            (Word::Sum | Word::Scale | Word::Begin, [destination, a, third]) => {
                return self.asks_three(destination, a, third);
            }
            (Word::Deal, [seat, strip]) => Order::Deal {
                seat: number(seat)?,
                strip: list(strip)?,
            },
            (Word::Gather, [seat]) => Order::Gather {
                seat: number(seat)?,
            },
            (Word::Open, [line]) => Order::Open {
                line: number(line)?,
            },
            (Word::Show, [seat]) => Order::Show {
                seat: number(seat)?,
            },
            _ => return None,
        };
        Some(order)
    }

    // The same with three items, which are numbers for each word that has so many. They are read here once, and not in
    // three arms of the match above.
    fn asks_three(self, destination: &Token<'_>, a: &Token<'_>, third: &Token<'_>) -> Option<Order>
        ensures { order_meant result ≡ asks self (items_of (destination.now ∷ a.now ∷ third.now ∷ [])) }
    {
        let (destination, a, third) = (number(destination)?, number(a)?, number(third)?);
        match self {
            Word::Sum => Some(Order::Sum {
                destination,
                a,
                b: third,
            }),
            Word::Scale => Some(Order::Scale {
                destination,
                a,
                constant: third,
            }),
            Word::Begin => Some(Order::Begin {
                destination,
                a,
                b: third,
            }),
            _ => None,
        }
    }
}
