// Why a call is refused: each cause once, with document 01's number for it. Cause 9, a buffer that is too short, comes with the length needed and
// so stands beside these (`Refusal`).
#![tactic(auto)]

ghost use Rattle.cause.specs.Cause.{number, IsNumber, IsCause};

// A cause that needs no number beside its own.
#[derive(Clone, Copy, Debug, PartialEq, Eq)]
pub enum Cause {
    Parties,
    Faults,
    Number,
    Length,
    State,
    Turn,
    Argument,
    Layout,
    Unreadable,
    TooFew,
    NoMessage,
    Plan,
    Unlawful,
    OtherRoot,
}

impl From<Cause> for u8 {
    ghost from_gives = { IsNumber };

    fn from(cause: Cause) -> u8 {
        match cause {
            Cause::Parties => 1,
            Cause::Faults => 2,
            Cause::Number => 3,
            Cause::Length => 4,
            Cause::State => 5,
            Cause::Turn => 6,
            Cause::Argument => 7,
            Cause::Layout => 8,
            Cause::Unreadable => 10,
            Cause::TooFew => 11,
            Cause::NoMessage => 12,
            Cause::Plan => 13,
            Cause::Unlawful => 14,
            Cause::OtherRoot => 15,
        }
    }
}

// Why bytes were not written to a lent buffer. Causes of another kind may stand in the place of this crate's.
#[derive(Clone, Copy, Debug, PartialEq, Eq)]
pub enum Refusal<C = Cause> {
    // For this cause.
    Because(C),
    // Cause 9: the buffer is shorter than this.
    Short(usize),
}

impl From<Cause> for Refusal {
    ghost from_gives = { IsCause };

    fn from(cause: Cause) -> Refusal {
        Refusal::Because(cause)
    }
}
