// A book's pages: its slate, once it is set, and what the seats hold.
use super::{Secrets, Slate};

#[derive(Clone, Copy)]
pub struct Pages {
    // none while the book is unset
    pub slate: Option<Slate>,
    pub secrets: Secrets,
}
