// What an order does at the desk.
ghost use Rattle.std.specs.Prelude.{◌≡◌};
ghost use Rattle.forms.specs.Orders.{meant, show as show_order, «open» as open_order};
ghost use Rattle.tally.specs.Desks.{laid, desk_of, result_of, on_book, on_desk};

use super::Desk;
use crate::answer::Answer;
use arrayvec::ArrayVec;
use book::{Book, SHOWN};
use forms::{FormFault, Order};
use kinds::Kind;
use sharing::MOST_SEATS;

// Open is lent a list of one place for each seat.
fn open<K: Kind>(book: &mut Book<K>, line: u32) -> Result<Answer, FormFault>
    ensures answer { result_of result ≡ (on_book K.Kind.ops book.old (open_order line)).answer }
    ensures book { laid K.Kind.ops book.new ≡ (on_book K.Kind.ops book.old (open_order line)).desk }
{
    let mut shares = ArrayVec::from([0; MOST_SEATS]);
    shares.truncate(book.seats() as usize);
    let total = book.open(line, shares.as_mut_slice())?;
    Ok(Answer::Opened {
        line,
        total,
        shares,
    })
}

// Show is lent a list of all its entries.
fn show<K: Kind>(book: &mut Book<K>, seat: u32) -> Result<Answer, FormFault>
    ensures answer { result_of result ≡ (on_book K.Kind.ops book.old (show_order seat)).answer }
    ensures book { laid K.Kind.ops book.new ≡ (on_book K.Kind.ops book.old (show_order seat)).desk }
{
    let mut entries = [0; SHOWN];
    book.show(seat, &mut entries)?;
    Ok(Answer::Shown { seat, entries })
}

// What an order does on a book. The kind is named already.
fn carry_out<K: Kind>(book: &mut Book<K>, order: Order) -> Result<Answer, FormFault>
    ensures answer { result_of result ≡ (on_book K.Kind.ops book.old (meant order)).answer }
    ensures book { laid K.Kind.ops book.new ≡ (on_book K.Kind.ops book.old (meant order)).desk }
{
    match order {
        Order::Kind { .. } => return Err(FormFault::WrongKind),
        Order::Set { n, k } => book.set(n, k)?,
        Order::Enter {
            line,
            house,
            figure,
            strip,
        } => book.enter(line, house, figure, strip.as_slice())?,
        Order::Sum { destination, a, b } => book.sum(destination, a, b)?,
        Order::Scale {
            destination,
            a,
            constant,
        } => book.scale(destination, a, constant)?,
        Order::Begin { destination, a, b } => book.begin(destination, a, b)?,
        Order::Deal { seat, strip } => book.deal(seat, strip.as_slice())?,
        Order::Gather { seat } => book.gather(seat)?,
        Order::Open { line } => return open(book, line),
        Order::Show { seat } => return show(book, seat),
    }
    Ok(Answer::Done)
}

impl Desk {
    pub(crate) fn follow(&mut self, order: Order) -> Result<Answer, FormFault>
        ensures answer { result_of result ≡ (on_desk (desk_of self.old) (meant order)).answer }
        ensures desk { desk_of self.new ≡ (on_desk (desk_of self.old) (meant order)).desk }
    {
        match self {
            Desk::Bare => {
                *self = Desk::try_from(order)?;
                Ok(Answer::Done)
            }
            Desk::Small(book) => carry_out(book, order),
            Desk::Wide(book) => carry_out(book, order),
            Desk::Byte(book) => carry_out(book, order),
        }
    }
}
