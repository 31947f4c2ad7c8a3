// Document 01, "Numbers of refusal", and those of document 02: each reason to refuse a file or a request, and its number.
#![tactic(auto)]

ghost use Rattle.std.specs.Prelude.{◌≡◌};
ghost use Rattle.refusal.specs.Number.{number_of};

// In the order of the numbers, from 1. What each says is `model/specs/Refusal.antt`.
#[derive(Clone, Copy, PartialEq, Eq)]
pub enum Refusal {
    ShortFile,
    WrongKind,
    WrongLength,
    WrongCount,
    WrongCloser,
    WrongStatement,
    WrongName,
    WrongTarget,
    ExtraBytes,
    WrongThread,
    Unfit,
    NotReady,
    PastHorizon,
    HazardStands,
    LogFull,
    ShortTable,
    WrongPort,
    LackedPort,
    OutOfTurn,
}

impl From<Refusal> for u8 {
    ghost from_gives = { λ r n. n ≡ number_of r };

    // The number that document 01 gives the refusal.
    fn from(r: Refusal) -> u8 {
        match r {
            Refusal::ShortFile => 1,
            Refusal::WrongKind => 2,
            Refusal::WrongLength => 3,
            Refusal::WrongCount => 4,
            Refusal::WrongCloser => 5,
            Refusal::WrongStatement => 6,
            Refusal::WrongName => 7,
            Refusal::WrongTarget => 8,
            Refusal::ExtraBytes => 9,
            Refusal::WrongThread => 10,
            Refusal::Unfit => 11,
            Refusal::NotReady => 12,
            Refusal::PastHorizon => 13,
            Refusal::HazardStands => 14,
            Refusal::LogFull => 15,
            Refusal::ShortTable => 16,
            Refusal::WrongPort => 17,
            Refusal::LackedPort => 18,
            Refusal::OutOfTurn => 19,
        }
    }
}
