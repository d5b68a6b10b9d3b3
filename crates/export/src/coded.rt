// A coder's answer as numbers.
ghost use Rattle.std.specs.Prelude.{◌≡◌};
ghost use Rattle.link.specs.Coder.{code_numbers};
ghost use Rattle.export.specs.Answers.{coded_of};

use link::refusal::Refusal;

// As C has it: numbers alone, of which those that do not apply are 0.
#[repr(C)]
#[derive(Clone, Copy)]
pub struct BurstCoded {
    pub refused: u64,
    pub block: u64,
}

impl From<Result<u16, Refusal>> for BurstCoded {
    ghost from_gives = { λ answer told. told ≡ coded_of (code_numbers answer) };

    fn from(answer: Result<u16, Refusal>) -> BurstCoded {
        match answer {
            Ok(block) => BurstCoded {
                refused: 0,
                block: block.into(),
            },
            Err(refusal) => BurstCoded {
                refused: refusal.into(),
                block: 0,
            },
        }
    }
}
