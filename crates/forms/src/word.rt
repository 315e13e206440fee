// The ten words.
ghost use Rattle.std.specs.Prelude.{◌≡◌};
ghost use Rattle.std.specs.Option.{ok_or};
ghost use Rattle.forms.specs.Words.{word_of};
ghost use Rattle.forms.specs.declared.fault.FormFault.TheVariants.{UnknownWord};

use crate::fault::FormFault;

#[derive(Clone, Copy, Debug, PartialEq, Eq)]
pub enum Word {
    Kind,
    Set,
    Enter,
    Sum,
    Scale,
    Begin,
    Deal,
    Gather,
    Open,
    Show,
}

// The word that the bytes are.
impl TryFrom<&[u8]> for Word {
    type Error = FormFault;

    ghost try_from_gives = { λ bytes r. r ≡ ok_or (word_of bytes.now) UnknownWord };

    fn try_from(bytes: &[u8]) -> Result<Word, FormFault> {
        match bytes {
            b"kind" => Ok(Word::Kind),
            b"set" => Ok(Word::Set),
            b"enter" => Ok(Word::Enter),
            b"sum" => Ok(Word::Sum),
            b"scale" => Ok(Word::Scale),
            b"begin" => Ok(Word::Begin),
            b"deal" => Ok(Word::Deal),
            b"gather" => Ok(Word::Gather),
            b"open" => Ok(Word::Open),
            b"show" => Ok(Word::Show),
            _ => Err(FormFault::UnknownWord),
        }
    }
}
