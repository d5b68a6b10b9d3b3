// A decoder's answer as numbers.
ghost use Rattle.std.specs.Prelude.{◌≡◌, ◌∷◌};
ghost use Rattle.link.specs.Decoder.{record_numbers, decode_numbers};
ghost use Rattle.export.specs.Answers.{decoded_of};

use link::decode::Delivered;
use link::refusal::Refusal;

// As C has it: numbers alone, of which those that do not apply are 0.
#[repr(C)]
#[derive(Clone, Copy)]
pub struct BurstDecoded {
    pub refused: u64,
    pub info: u64,
    pub mark: u64,
    pub error: u64,
}

// A record of information, mark and error.
impl From<Delivered> for BurstDecoded {
    ghost from_gives = { λ delivered told. told ≡ decoded_of (0 ∷ record_numbers delivered) };

    fn from(delivered: Delivered) -> BurstDecoded {
        let mark = delivered.mark;
        BurstDecoded {
            refused: 0,
            info: delivered.info.into(),
            mark: mark.into(),
            error: mark.error().into(),
        }
    }
}

impl From<Result<Option<Delivered>, Refusal>> for BurstDecoded {
    ghost from_gives = { λ answer told. told ≡ decoded_of (decode_numbers answer) };

    fn from(answer: Result<Option<Delivered>, Refusal>) -> BurstDecoded {
        match answer {
            Ok(Some(delivered)) => delivered.into(),
            Ok(None) => BurstDecoded {
                refused: 0,
                info: 0,
                mark: 0,
                error: 0,
            },
            Err(refusal) => BurstDecoded {
                refused: refusal.into(),
                info: 0,
                mark: 0,
                error: 0,
            },
        }
    }
}
