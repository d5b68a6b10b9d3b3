// Why a start or a step is refused.
ghost use Rattle.std.specs.Prelude.{◌≡◌};
ghost use Rattle.link.specs.Refusals.{refusal_number};

#[derive(Clone, Copy, Debug, PartialEq, Eq)]
pub enum Refusal {
    // 12.
    UnfitTable,
    // 13.
    WrongLength,
    // 14.
    MalformedMemory,
    // 15.
    BlockTooLarge,
}

// 01's number.
impl From<Refusal> for u64 {
    ghost from_gives = { λ r k. k ≡ refusal_number r };

    fn from(refusal: Refusal) -> u64 {
        match refusal {
            Refusal::UnfitTable => 12,
            Refusal::WrongLength => 13,
            Refusal::MalformedMemory => 14,
            Refusal::BlockTooLarge => 15,
        }
    }
}
