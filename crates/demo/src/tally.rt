// One tally from beginning to end: three houses, a sum, a scaling and a product.
use super::Result;
use book::{Book, SHOWN};
use kinds::{Code, Kind, Wide};
use sharing::Refusal;

// What a house brings: a figure, and a strip of one code drawn at random.
#[derive(Clone, Copy)]
struct Brought {
    figure: Code,
    strip: Code,
}

// Lines 0 to 2 take the hours of houses 1 to 3, line 4 their sum, line 5 fourteen times that.
fn enter_hours(book: &mut Book<Wide>, hours: &[Brought; 3]) -> Result<(), Refusal> {
    book.set(3, 2)?;
    let [first, second, third] = *hours;
    for (line, house, brought) in [(0, 1, first), (1, 2, second), (2, 3, third)] {
        book.enter(line, house, brought.figure, &[brought.strip])?;
    }
    book.sum(3, 0, 1)?;
    book.sum(4, 3, 2)?;
    book.scale(5, 4, 14)
}

// House 2 enters a secret rate into line 6, and line 7 takes the product of the hours by it.
fn multiply(book: &mut Book<Wide>) -> Result<(), Refusal> {
    book.enter(6, 2, 3, &[1999999999])?;
    book.begin(7, 4, 6)?;
    for (seat, strip) in [(1, 88), (2, 1234567), (3, 2000000011)] {
        book.deal(seat, &[strip])?;
    }
    for seat in 1..=3 {
        book.gather(seat)?;
    }
    Ok(())
}

fn tell_total(rt: &impl Print, book: &mut Book<Wide>, line: u32, what: &str) -> Result<()> {
    let mut shares = [0; 3];
    match book.open(line, &mut shares) {
        Ok(total) => println!(rt;
            "  Line {line} is opened, {what}: the shares {shares:?} give {total}."
        )?,
        Err(refusal) => {
            let number = refusal.number();
            println!(rt; "  Line {line} is not opened, cause {number}.")?
        }
    }
    Ok(())
}

// All that a seat holds, by the call that writes into a lent list: two entries for each line, of which the second is the share, and then the letters.
fn held(book: &mut Book<Wide>, seat: u32) -> Result<[Code; SHOWN], Refusal> {
    let mut entries = [0; SHOWN];
    book.show(seat, &mut entries)?;
    Ok(entries)
}

// What a seat holds of lines 4, 6 and 7.
fn tell_seat(rt: &impl Print, book: &mut Book<Wide>, seat: u32) -> Result<()> {
    let entries = held(book, seat)?;
    let [hours, rate, product] = [entries[9], entries[13], entries[15]];
    println!(rt;
        "  Seat {seat} holds {hours} of the hours, {rate} of the rate and {product} of the product."
    )?;
    Ok(())
}

// Other figures of the same sum, along strips moved by the mask of the seat.
fn disguised(hours: [Brought; 3], seat: u32) -> [Brought; 3] {
    let mut mask = [0];
    sharing::mask::<Wide>(&[seat], &mut mask);
    let moved = |brought: Brought, by: Code| Brought {
        figure: Wide::sum(brought.figure, by),
        strip: Wide::sum(brought.strip, Wide::product(by, mask[0])),
    };
    let [first, second, third] = hours;
    [moved(first, 5), moved(second, Wide::negative(5)), third]
}

fn tell_disguise(rt: &impl Print, hours: [Brought; 3], seat: u32) -> Result<()> {
    let other = disguised(hours, seat);
    let [a, b, _] = other.map(|brought| brought.figure);
    let mut one = Book::new();
    let mut two = Book::new();
    enter_hours(&mut one, &hours)?;
    enter_hours(&mut two, &other)?;
    let answer = if held(&mut one, seat)? == held(&mut two, seat)? {
        "the very same"
    } else {
        "something else"
    };
    println!(rt;
        "  Had house 1 entered {a} and house 2 entered {b}, with strips to match, seat {seat} would hold {answer}."
    )?;
    Ok(())
}

pub fn tell(rt: &impl Print) -> Result<()> {
    let hours = [(120, 777777777), (95, 31), (60, 2147483640)].map(|(figure, strip)| Brought {
        figure,
        strip,
    });
    let [a, b, c] = hours.map(|brought| brought.figure);
    println!(rt;
        "  The houses enter {a}, {b} and {c} hours; no seat sees a figure, only its own shares."
    )?;
    let mut book = Book::new();
    enter_hours(&mut book, &hours)?;
    println!(rt; "  The seats add up the hours and scale the sum by 14, each for itself.")?;
    multiply(&mut book)?;
    println!(rt;
        "  House 2 entered a secret rate. For the product each seat multiplies its shares, deals"
    )?;
    println!(rt; "  letters to all, and gathers what it got.")?;
    for seat in 1..=3 {
        tell_seat(rt, &mut book, seat)?;
    }
    for (line, what) in [
        (4, "the hours together"),
        (5, "fourteen times the hours"),
        (7, "the hours at the secret rate"),
        (8, "which nobody wrote"),
    ] {
        tell_total(rt, &mut book, line, what)?;
    }
    tell_disguise(rt, hours, 3)
}
