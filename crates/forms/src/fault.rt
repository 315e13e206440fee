// Why a form does not run.
ghost use Rattle.std.specs.Prelude.{◌≡◌};
ghost use Rattle.forms.specs.Faults.{layer_number, form_layer, form_column, form_cause};
ghost use Rattle.forms.specs.declared.fault.FormFault.TheVariants.{Refused};

use sharing::Refusal;
use thiserror::Error;

// What a fault is the fault of, with the number that the rules give it: the sheet's text, a form, or a call on the book.
#[derive(Clone, Copy, Debug, PartialEq, Eq)]
pub enum Layer {
    Reader = 1,
    Form = 2,
    Book = 3,
}

impl Layer {
    // The number of the layer in the rules, which a sheet writes.
    pub fn number(self) -> u32
        ensures { result ≡ layer_number self }
    {
        self as u32
    }
}

// A form that asks for nothing that can be done, or that the book refuses, with the book's own refusal inside.
#[derive(Clone, Copy, Debug, PartialEq, Eq, Error)]
pub enum FormFault {
    #[error("the word is none of the ten")]
    UnknownWord,
    #[error("the items are not those of the word")]
    WrongItems,
    #[error("the kind is missing, named again or none of the three")]
    WrongKind,
    #[error("the book refuses the call: {0}")]
    Refused(Refusal),
}

// Written out, since a derived conversion says of no value which fault it becomes.
impl From<Refusal> for FormFault {
    ghost from_gives = { λ x r. r ≡ Refused x };

    fn from(refusal: Refusal) -> FormFault {
        FormFault::Refused(refusal)
    }
}

impl FormFault {
    // The form's own layer, or the book's for its refusal.
    pub fn layer(self) -> Layer
        ensures { layer_number result ≡ form_layer self }
    {
        match self {
            FormFault::Refused(_) => Layer::Book,
            _ => Layer::Form,
        }
    }

    // An unknown word stands at its first letter, anything else at the form's "(".
    pub fn column(self) -> u32
        ensures { result ≡ form_column self }
    {
        match self {
            FormFault::UnknownWord => 2,
            _ => 1,
        }
    }

    // The number of the cause in the rules. No case has it as its own, since the book's refusal brings a number along.
    pub fn number(self) -> u32
        ensures { result ≡ form_cause self }
    {
        match self {
            FormFault::UnknownWord => 23,
            FormFault::WrongItems => 24,
            FormFault::WrongKind => 25,
            FormFault::Refused(refusal) => refusal.number(),
        }
    }
}
