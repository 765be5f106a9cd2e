// Why a model, a session, an order, a dump or a text is refused.
ghost use Rattle.std.specs.Prelude.{◌≡◌};
ghost use Rattle.base.specs.Refusals.{number_of};

// The rule that is broken. Each has a number.
#[derive(Clone, Copy, Debug, PartialEq, Eq)]
pub enum Refusal {
    ModelLength,
    BlockSum,
    BlockHead,
    Counts,
    Fields,
    Trees,
    Types,
    Owners,
    OrdersLength,
    AnswersLength,
    UnknownOrder,
    NoProcess,
    NotReady,
    StillReady,
    Stopped,
    DeltaLimit,
    NeverDue,
    TooLate,
    NoSignal,
    NullOnPlain,
    NoRoom,
    NothingDueNow,
    DueNow,
    NotSymmetric,
    NotAssociative,
    NoSentence,
    UnknownName,
}

impl Refusal {
    // The rule's number, 1 to 27.
    pub fn number(self) -> usize
        ensures { result ≡ number_of self }
    {
        match self {
            Refusal::ModelLength => 1,
            Refusal::BlockSum => 2,
            Refusal::BlockHead => 3,
            Refusal::Counts => 4,
            Refusal::Fields => 5,
            Refusal::Trees => 6,
            Refusal::Types => 7,
            Refusal::Owners => 8,
            Refusal::OrdersLength => 9,
            Refusal::AnswersLength => 10,
            Refusal::UnknownOrder => 11,
            Refusal::NoProcess => 12,
            Refusal::NotReady => 13,
            Refusal::StillReady => 14,
            Refusal::Stopped => 15,
            Refusal::DeltaLimit => 16,
            Refusal::NeverDue => 17,
            Refusal::TooLate => 18,
            Refusal::NoSignal => 19,
            Refusal::NullOnPlain => 20,
            Refusal::NoRoom => 21,
            Refusal::NothingDueNow => 22,
            Refusal::DueNow => 23,
            Refusal::NotSymmetric => 24,
            Refusal::NotAssociative => 25,
            Refusal::NoSentence => 26,
            Refusal::UnknownName => 27,
        }
    }
}
