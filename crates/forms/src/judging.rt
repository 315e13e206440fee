// The judging of a form.
ghost use Rattle.std.specs.Prelude.{◌≡◌, map};
ghost use Rattle.reading.specs.Told.{told};
ghost use Rattle.forms.specs.Lists.{ListIsValued};
ghost use Rattle.forms.specs.Judging.{judged_meant, judged, JudgesForms};

use crate::fault::FormFault;
use crate::order::Order;
use crate::word::Word;
use reading::Token;

// What the tokens of a line ask for. An unknown word comes before wrong items.
pub fn judge(tokens: &[Token<'_>]) -> Result<Order, FormFault>
    ensures answer { judged_meant result ≡ judged (map told tokens.now) }
    ensures forms { JudgesForms }
    ensures lists { ListIsValued }
{
    let Some((Token::Word(part), items)) = tokens.split_first() else {
        return Err(FormFault::UnknownWord);
    };
    let word = Word::try_from(part.bytes)?;
    word.asks(items).ok_or(FormFault::WrongItems)
}
