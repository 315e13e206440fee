// Short sheets, each with the text that the rules give it.
use std::alloc::Global;
use std::process::Abort;
use std::test::Fail;
use tally::write_up;

fn check(rt: &impl Abort, heap: Global, sheet: &[u8], text: &str) -> Result<(), Fail> {
    let written = write_up(sheet, heap)?;
    assert_eq!(rt; written.as_str(), text);
    Ok(())
}

fn check_each(rt: &impl Abort, heap: Global, cases: &[(&str, &str)]) -> Result<(), Fail> {
    for (sheet, text) in cases {
        check(rt, heap, sheet.as_bytes(), text)?;
    }
    Ok(())
}

#[test]
fn words_and_kinds(rt: HostRuntime) -> Result<(), Fail> {
    let cases = [
        ("", ""),
        ("(kind 1)\n", "ok\n"),
        ("(kind 0)\n", "no 2 1 1 25\n"),
        ("(kind 4)\n", "no 2 1 1 25\n"),
        ("(kind 3)\n(kind 3)\n(set 3 2)\n", "ok\nno 2 2 1 25\n"),
        ("(set 3 2)\n", "no 2 1 1 25\n"),
        ("(kinds 1)\n", "no 2 1 2 23\n"),
        ("(kind)\n", "no 2 1 1 24\n"),
        ("(kind (1))\n", "no 2 1 1 24\n"),
        ("(kind 1 2)\n", "no 2 1 1 24\n"),
        ("(kind 2)\n(open 0)\n(set 3 2)\n", "ok\nno 3 2 1 1\nok\n"),
    ];
    check_each(&rt, rt.alloc(), &cases)
}

#[test]
fn lines(rt: HostRuntime) -> Result<(), Fail> {
    let cases = [
        ("(enter 00x", "no 1 1 8 21\n"),
        ("(enter 4", "no 1 1 9 20\n"),
        ("(enterings)\n", "no 1 1 10 20\n"),
        ("(a (1 2 3 4 5 6 7 8 9 10x", "no 1 1 23 22\n"),
        ("(a (1 2 3 4 5 6 7 8 9 010", "no 1 1 23 21\n"),
        ("(kind 4294967296)\n", "no 1 1 7 21\n"),
        ("(kind 1)\n\n", "ok\nno 1 2 1 20\n"),
    ];
    check_each(&rt, rt.alloc(), &cases)
}

// Three figures a, b and c at five seats with threshold 3, shared along 3 + x + x², 7 + x + x² and 5 + x², and (a + b) × c,
// reshared along x + x² by each seat.
#[test]
fn five_seats(rt: HostRuntime) -> Result<(), Fail> {
    check(
        &rt,
        rt.alloc(),
        b"(kind 1)\n(set 5 3)\n(enter 0 1 3 (1 1))\n(enter 1 2 7 (1 1))\n(enter 2 3 5 (0 1))\n(sum 3 0 1)\n(begin 4 3 2)\n(deal 1 (1 1))\n(deal 2 (1 1))\n(deal 3 (1 1))\n(deal 4 (1 1))\n(deal 5 (1 1))\n(gather 1)\n(gather 2)\n(gather 3)\n(gather 4)\n(gather 5)\n(open 4)\n",
        "ok\nok\nok\nok\nok\nok\nok\nok\nok\nok\nok\nok\nok\nok\nok\nok\nok\nopen 4 19 21 25 0 8 18\n",
    )
}

#[test]
fn longest(rt: HostRuntime) -> Result<(), Fail> {
    let heap = rt.alloc();
    let sheet = [b'('; 65_537];
    check(&rt, heap, &sheet[..65_536], "no 1 1 2 20\n")?;
    check(&rt, heap, &sheet, "no 1 0 0 26\n")
}
