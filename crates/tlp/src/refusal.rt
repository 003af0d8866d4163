// Why a call is refused: every number that one answers, by its name. numbers.txt says when each is given.
ghost use Rattle.std.specs.Prelude.{◌≡◌};
ghost use Rattle.tlp.specs.Refusals.{number, number_in};

#[derive(Clone, Copy, Debug, PartialEq, Eq)]
pub enum Refusal {
    HeaderIncomplete = 1,
    UnknownKind = 2,
    SizeMismatch = 3,
    HintOrAddressType = 4,
    OverMaxPayload = 5,
    BadField = 6,
    BadEnables = 7,
    Crosses4K = 8,
    BadRouting = 9,
    Needless64BitForm = 10,
    BadSetting = 11,
    OutputTooShort = 12,
    BadLine = 13,
    TagOverLimit = 20,
    TagOpen = 21,
    OverMaxReadRequest = 22,
    BadWindow = 23,
    WindowOverlap = 24,
    TagNotOpen = 25,
    NotACompletion = 29,
    UnexpectedCompletion = 30,
    ClassOrAttributesDiffer = 31,
    BadCompletionStatus = 32,
    NotAContinuation = 33,
    BadStore = 34,
}

impl Refusal {
    // The number that hosts and captures see.
    pub fn number(self) -> u32
        ensures { result ≡ number self }
    {
        self as u32
    }
}

// The number of an answer; 0 for accepted.
pub fn number_in<T: Drop>(answer: Result<T, Refusal>) -> u32
    ensures { result ≡ number_in answer }
{
    match answer {
        Ok(_) => 0,
        Err(refusal) => refusal.number(),
    }
}
