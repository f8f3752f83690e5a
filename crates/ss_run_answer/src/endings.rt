//! How a run ends.

ghost use Rattle.std.specs.Prelude.{◌≡◌};
ghost use Rattle.ss_run_answer.specs.Words.{status_of};

/// How a run of `answer` ended.
#[derive(Clone, Copy, Debug, PartialEq, Eq)]
pub enum Ending {
    /// The input ended between messages: status 0.
    End,

    /// The last message asked to close: status 0.
    Asked,

    /// The words ask for another command, or for nothing, and nothing was read or written: status 1.
    OtherWords,

    /// A read of the input failed: status 2.
    Input,

    /// A write of the output failed: status 3.
    Output,

    /// The input ended inside a message: status 4.
    Cut,

    /// What came is no message, and was answered by a refusal: status 5.
    Refused,

    /// 1,000,000 messages were answered, as many as may be: status 6.
    Count,

    /// No memory was found for the run itself: status 8.
    Memory,
}

impl Ending {
    /// The status of a run that ended so.
    pub fn status(self) -> u8
        ensures { result ≡ status_of self }
    {
        match self {
            Ending::End | Ending::Asked => 0,
            Ending::OtherWords => 1,
            Ending::Input => 2,
            Ending::Output => 3,
            Ending::Cut => 4,
            Ending::Refused => 5,
            Ending::Count => 6,
            Ending::Memory => 8,
        }
    }
}
