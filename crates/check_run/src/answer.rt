//! What a run answers.
ghost use Rattle.std.specs.Prelude.{◌≡◌, true};

use check_page::Page;

/// What a run answers: a text, and whether it says yes.
#[derive(Debug, Drop)]
pub struct Answer {
    pub text: Vec<u8>,
    pub yes: bool,
}

impl Answer {
    /// The text of a page, which says yes.
    pub(crate) fn of_page(page: Page) -> Answer
        ensures { result ≡ record { text = page.bytes; yes = true } }
    {
        Answer {
            text: page.bytes,
            yes: true,
        }
    }
}
