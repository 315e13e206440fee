// The worked figures of the book, and the two ways in which its promise of secrecy would be false.
use book::{Book, SHOWN};
use kinds::{Code, Small};
use sharing::Refusal;
use std::test::Fail;

// One run: two houses enter their figures along strips, and seats 1 and 2 deal along strips.
#[derive(Clone, Copy)]
struct Run {
    entered: [Entry; 2],
    dealt: [Code; 2],
}

// A figure, and the one code of its strip.
#[derive(Clone, Copy)]
struct Entry {
    figure: Code,
    strip: Code,
}

const FIRST: Run = Run {
    entered: [
        Entry {
            figure: 4,
            strip: 5,
        },
        Entry {
            figure: 10,
            strip: 3,
        },
    ],
    dealt: [6, 0],
};

// The run that is paired with the first for the group of seat 3.
const SECOND: Run = Run {
    entered: [
        Entry {
            figure: 2,
            strip: 16,
        },
        Entry {
            figure: 20,
            strip: 10,
        },
    ],
    dealt: [20, 14],
};

fn deal_all(book: &mut Book<Small>, run: Run) -> Result<(), Refusal> {
    let [a, b] = run.entered;
    let [c, d] = run.dealt;
    book.set(3, 2)?;
    book.enter(0, 1, a.figure, &[a.strip])?;
    book.enter(1, 2, b.figure, &[b.strip])?;
    book.begin(2, 0, 1)?;
    book.deal(1, &[c])?;
    book.deal(2, &[d])?;
    book.deal(3, &[11])
}

fn gather_all(book: &mut Book<Small>) -> Result<(), Refusal> {
    book.gather(1)?;
    book.gather(2)?;
    book.gather(3)
}

// All that show writes of a seat, into a lent list.
fn shown(book: &mut Book<Small>, seat: u32) -> Result<[Code; SHOWN], Refusal> {
    let mut list = [0; SHOWN];
    book.show(seat, &mut list)?;
    Ok(list)
}

#[test]
fn product_by_resharing(rt: HostRuntime) -> Result<(), Fail> {
    let mut book = Book::new();
    deal_all(&mut book, FIRST)?;
    let held = shown(&mut book, 1)?;
    assert_eq!(rt; held[65], 30);
    assert_eq!(rt; held[67], 7);
    assert_eq!(rt; held[68], 1);
    assert_eq!(rt; held[69], 0);
    gather_all(&mut book)?;
    let mut shares = [0; 3];
    assert_eq!(rt; book.open(2, &mut shares), Ok(9));
    assert_eq!(rt; shares, [7, 5, 3]);
    assert!(rt; book.open(3, &mut shares).is_err());
    Ok(())
}

// Seat 3 holds the same in the paired run, before and after the gathers.
#[test]
fn paired_run(rt: HostRuntime) -> Result<(), Fail> {
    let mut one = Book::new();
    let mut two = Book::new();
    deal_all(&mut one, FIRST)?;
    deal_all(&mut two, SECOND)?;
    for held in [shown(&mut one, 3)?, shown(&mut two, 3)?] {
        assert_eq!(rt;
            [held[1], held[3], held[65], held[67], held[69]],
            [19, 19, 11, 7, 22]
        );
    }
    gather_all(&mut one)?;
    gather_all(&mut two)?;
    let mut shares = [0; 3];
    assert_eq!(rt; two.open(2, &mut shares), Ok(9));
    assert_eq!(rt; shares, [7, 5, 3]);
    assert!(rt; shown(&mut one, 3)? == shown(&mut two, 3)?);
    Ok(())
}

// The cause of a refusal; none where the call was accepted.
fn cause(answer: Result<(), Refusal>) -> Option<u32> {
    answer.err().map(Refusal::number)
}

#[test]
fn limits(rt: HostRuntime) {
    for (n, k, refused) in [
        (5, 3, None),
        (9, 5, None),
        (3, 2, None),
        (4, 3, Some(2)),
        (10, 5, Some(2)),
        (2, 2, Some(2)),
        (3, 1, Some(2)),
        (9, 6, Some(2)),
    ] {
        let mut book = Book::<Small>::new();
        assert_eq!(rt; cause(book.set(n, k)), refused);
    }
    let mut book = Book::<Small>::new();
    assert_eq!(rt; cause(book.gather(1)), Some(1));
    assert_eq!(rt; cause(book.set(3, 2)), None);
    assert_eq!(rt; cause(book.set(10, 9)), Some(3));
    assert_eq!(rt; cause(book.enter(31, 3, 30, &[30])), None);
    assert_eq!(rt; cause(book.enter(32, 0, 31, &[])), Some(4));
    assert_eq!(rt; cause(book.enter(31, 0, 31, &[])), Some(5));
    assert_eq!(rt; cause(book.enter(0, 4, 31, &[])), Some(7));
    assert_eq!(rt; cause(book.enter(0, 3, 31, &[])), Some(8));
    assert_eq!(rt; cause(book.enter(0, 3, 30, &[31, 31])), Some(9));
    assert_eq!(rt; cause(book.enter(0, 3, 30, &[31])), Some(10));
}

// Without the bound on the group the promise is false: two seats of threshold 2 hold shares of figure 4 that
// no strip of figure 2 gives them. A single seat does find the partner of every strip.
#[test]
fn as_many_seats_as_the_threshold_learn_the_figure(rt: HostRuntime) {
    for s in 0..31 {
        let [first, second] = [1, 2].map(|seat| sharing::share::<Small>(4, &[s], seat));
        let partners = (0..31)
            .filter(|t| sharing::share::<Small>(2, &[*t], 1) == first)
            .count();
        assert_eq!(rt; partners, 1);
        let both = (0..31).any(|t| {
            [1, 2].map(|seat| sharing::share::<Small>(2, &[t], seat)) == [first, second]
        });
        assert!(rt; !both);
    }
}

// Without equal values at an open the promise is false: whatever the strips, the totals differ.
#[test]
fn an_opened_total_tells_the_value(rt: HostRuntime) {
    for s in 0..31 {
        let mut book = Book::<Small>::new();
        assert_eq!(rt; book.set(3, 2), Ok(()));
        assert_eq!(rt; book.enter(0, 1, 4, &[s]), Ok(()));
        assert_eq!(rt; book.enter(1, 1, 2, &[s]), Ok(()));
        let mut shares = [0; 3];
        assert_eq!(rt; book.open(0, &mut shares), Ok(4));
        assert_eq!(rt; book.open(1, &mut shares), Ok(2));
    }
}
