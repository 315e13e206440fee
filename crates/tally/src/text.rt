// What a line of a sheet writes, with the byte that ends it.
ghost use Rattle.std.specs.Prelude.{Some};
ghost use Rattle.std.specs.List.{flat_map};
ghost use Rattle.tally.specs.Desks.{answer_of};
ghost use Rattle.tally.specs.Taking.{numbers_of};
ghost use Rattle.tally.specs.Texts.{field, answer_text, fault_text};

use crate::answer::Answer;
use crate::fault::ToldFault;
use reading::Place;
use std::fmt;

// Each number behind a space.
#[derive(Clone, Copy)]
struct Fields<'a>(&'a [u32]);

impl fmt::Display for Fields<'_> {
    ghost output = { λ x. Some (flat_map field x.0.now) };

    fn fmt<W: fmt::Write>(&self, f: &mut fmt::Formatter<W>) -> fmt::Result {
        for n in self.0 {
            write!(f, " {n}")?;
        }
        Ok(())
    }
}

impl fmt::Display for Answer {
    ghost output = { λ x. Some (answer_text (answer_of x)) };

    fn fmt<W: fmt::Write>(&self, f: &mut fmt::Formatter<W>) -> fmt::Result {
        match self {
            Answer::Done => writeln!(f, "ok"),
            Answer::Opened {
                line,
                total,
                shares,
            } => writeln!(f, "open {line} {total}{}", Fields(shares.as_slice())),
            Answer::Shown { seat, entries } => writeln!(f, "show {seat}{}", Fields(entries)),
        }
    }
}

impl fmt::Display for ToldFault {
    ghost output = { λ x. Some (fault_text (numbers_of x)) };

    fn fmt<W: fmt::Write>(&self, f: &mut fmt::Formatter<W>) -> fmt::Result {
        let ToldFault {
            layer,
            place: Place { line, column },
            cause,
        } = *self;
        writeln!(f, "no {} {line} {column} {cause}", layer.number())
    }
}
