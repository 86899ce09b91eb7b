//! What words ask for.
/// What the words of a command line ask for.
#[derive(Debug, Clone, Copy, PartialEq, Eq)]
pub enum Asked<'a> {
    /// Something of the batch of a file.
    Batch(BatchRequest<'a>),
    /// The bits that are left at this many messages.
    Bits(BitsRequest<'a>),
}

/// A task about the batch of a file.
#[derive(Debug, Clone, Copy, PartialEq, Eq)]
pub struct BatchRequest<'a> {
    /// The file with the text of the batch.
    pub file: &'a str,
    /// The name of the field that the batch is over.
    pub field: &'a str,
    /// Whether each step is told.
    pub progress: bool,
    /// What is to be done.
    pub task: Task<'a>,
}

/// What is to be done with a batch.
#[derive(Debug, Clone, Copy, PartialEq, Eq)]
pub enum Task<'a> {
    /// Say whether the batch balances. Of each bus and of each tuple, `limit` faults are told. With `enforced`, say
    /// also whether its constraints enforce all flags and weights.
    Check {
        limit: usize,
        degree: usize,
        json: bool,
        enforced: bool,
    },
    /// Say what holds of its AIRs, as far as no trace is needed, whether `target` bits are reached, and with
    /// `enforced` whether its constraints enforce all flags and weights.
    Plan {
        degree: usize,
        json: bool,
        target: Option<u64>,
        enforced: bool,
    },
    /// Say which of its lookups share a column within `degree`.
    Pack {
        degree: usize,
        json: bool,
    },
    /// Write its lookups.
    Show {
        json: bool,
    },
    /// Write its auxiliary traces and terminals at these challenges, to the file `out` if one is
    /// named.
    Witness {
        challenges: ChallengeWords<'a>,
        out: Option<&'a str>,
    },
    /// Say whether the witness in the file `witness` is accepted at these challenges.
    Accept {
        challenges: ChallengeWords<'a>,
        witness: &'a str,
    },
    /// Say whether any witness is accepted at these challenges.
    Any {
        challenges: ChallengeWords<'a>,
    },
}

/// Two challenges, as they were written. Whether they are elements is not judged here.
#[derive(Debug, Clone, Copy, PartialEq, Eq)]
pub struct ChallengeWords<'a> {
    /// The first challenge.
    pub alpha: &'a str,
    /// The second challenge.
    pub beta: &'a str,
}

/// How many bits are left, where so many messages are sent.
#[derive(Debug, Clone, Copy, PartialEq, Eq)]
pub struct BitsRequest<'a> {
    /// The name of the field that the challenges are from.
    pub field: &'a str,
    /// How many distinct messages there are at most.
    pub messages: u64,
    /// How many of them do not balance.
    pub unbalanced: u64,
    /// The most values of a message.
    pub width: u64,
    /// The bits that are wanted, if any.
    pub target: Option<u64>,
    /// Whether the answer is JSON.
    pub json: bool,
}
