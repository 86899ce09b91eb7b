//! Why words ask for nothing.
ghost use Rattle.std.specs.Prelude.{◌≡◌};
ghost use Rattle.clap.specs.Words.{kind_of};
ghost use Rattle.check_words.specs.internal.Refusals.{IsMistake, TellsKind};
ghost use Rattle.check_words.specs.declared.refusal.WordsRefusal.TheVariants.{Memory};

use clap::Error;
use clap::error::ErrorKind;
use std::alloc::{AllocError, AllocFailed, Global};

/// What words get that ask for nothing. The texts are those of `clap`, and end with a line end.
#[derive(Debug, PartialEq, Eq, Drop)]
pub enum WordsRefusal {
    /// Out of memory.
    Memory,
    /// The help that was asked for: the answer, on the standard output.
    Help(String),
    /// What is wrong with the words, for the standard error.
    Told(String),
}

impl From<AllocError> for WordsRefusal {
    ghost from_gives = { λ _ e. e ≡ Memory };

    fn from(_error: AllocError) -> WordsRefusal {
        WordsRefusal::Memory
    }
}

impl<T: Drop> From<AllocFailed<T>> for WordsRefusal {
    ghost from_gives = { λ _ e. e ≡ Memory };

    fn from(_error: AllocFailed<T>) -> WordsRefusal {
        WordsRefusal::Memory
    }
}

/// What the words get where `clap` gives no matches.
pub fn refusal_of(alloc: Global, error: &Error) -> WordsRefusal
    ensures { TellsKind (kind_of error.now) result }
{
    let kind = error.kind();
    if kind == ErrorKind::OutOfMemory {
        return WordsRefusal::Memory;
    }
    match format!(in alloc; "{error}") {
        Ok(text) if kind == ErrorKind::DisplayHelp => WordsRefusal::Help(text),
        Ok(text) => WordsRefusal::Told(text),
        Err(_) => WordsRefusal::Memory,
    }
}

/// What the words get where more messages are unbalanced than there are.
pub fn too_many_unbalanced(alloc: Global) -> WordsRefusal
    ensures { IsMistake result }
{
    let text = "error: '--unbalanced <K>' is above '--messages <N>'\n\n\
        For more information, try '--help'.\n";
    match String::from_str(alloc, text) {
        Ok(lines) => WordsRefusal::Told(lines),
        Err(_) => WordsRefusal::Memory,
    }
}
