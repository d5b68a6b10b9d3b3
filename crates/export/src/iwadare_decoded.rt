// The answer of a decoder of the Iwadare-Massey stations as numbers.
ghost use Rattle.std.specs.Prelude.{◌≡◌};
ghost use Rattle.iwadare.specs.Decoder.{decode_numbers};
ghost use Rattle.export.specs.Answers.{iwadare_decoded_of};

use link::refusal::Refusal;

// As C has it: numbers alone, of which those that do not apply are 0.
#[repr(C)]
#[derive(Clone, Copy)]
pub struct BurstIwadareDecoded {
    pub refused: u64,
    pub delivered: u64,
    pub info: u64,
}

impl From<Result<Option<u16>, Refusal>> for BurstIwadareDecoded {
    ghost from_gives = { λ answer told. told ≡ iwadare_decoded_of (decode_numbers answer) };

    fn from(answer: Result<Option<u16>, Refusal>) -> BurstIwadareDecoded {
        match answer {
            Ok(Some(info)) => BurstIwadareDecoded {
                refused: 0,
                delivered: 1,
                info: info.into(),
            },
            Ok(None) => BurstIwadareDecoded {
                refused: 0,
                delivered: 0,
                info: 0,
            },
            Err(refusal) => BurstIwadareDecoded {
                refused: refusal.into(),
                delivered: 0,
                info: 0,
            },
        }
    }
}
