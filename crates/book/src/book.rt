// The book and its calls.
ghost use Rattle.book.specs.Books.{KeepsWeights};
ghost use Rattle.book.specs.declared.pages.Pages.{Pages as Shown};

use super::Pages;
use arrayvec::ArrayVec;
use kinds::{Code, Kind};
use sharing::MOST_SEATS;
use std::marker::{Model, PhantomData};

mod calls;

// One tally of one kind of number for its whole life. It is unset, or shared among n seats.
#[derive(Drop)]
pub struct Book<K: Kind> {
    kind: PhantomData<K>,
    pages: Pages,
    // the weights of seats 1 to n, once an open or a gather has worked them out; none before
    weights: ArrayVec<Code, MOST_SEATS>,
}

// The contracts speak of a book as its pages.
impl<K: Kind> Model for Book<K> {
    ghost Value = { Shown };

    ghost view = { λ b. b.pages };

    ghost invariant = { λ b. KeepsWeights K.Kind.ops b.pages b.weights.items };
}
