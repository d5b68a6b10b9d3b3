// The answer of writing as numbers.
ghost use Rattle.std.specs.Prelude.{◌≡◌, Err};
ghost use Rattle.tables.specs.Writing.{write_numbers};
ghost use Rattle.export.specs.Answers.{written_of};

use tables::judge::Clash;
use tables::write::WriteError;

// As C has it: numbers alone, of which those that do not apply are 0.
#[repr(C)]
#[derive(Clone, Copy)]
pub struct BurstWritten {
    pub refused: u64,
    pub length: u64,
    pub l: u64,
    pub e0: u64,
    pub e1: u64,
}

impl From<WriteError> for BurstWritten {
    ghost from_gives = { λ error told. told ≡ written_of (write_numbers (Err error)) };

    fn from(error: WriteError) -> BurstWritten {
        let refused = error.into();
        match error {
            WriteError::Unsuitable(Clash { l, e0, e1 }) => BurstWritten {
                refused,
                length: 0,
                l,
                e0,
                e1,
            },
            WriteError::Unfit | WriteError::NoRoom => BurstWritten {
                refused,
                length: 0,
                l: 0,
                e0: 0,
                e1: 0,
            },
        }
    }
}

impl From<Result<usize, WriteError>> for BurstWritten {
    ghost from_gives = { λ answer told. told ≡ written_of (write_numbers answer) };

    fn from(answer: Result<usize, WriteError>) -> BurstWritten {
        match answer {
            Ok(length) => BurstWritten {
                refused: 0,
                length: length as u64,
                l: 0,
                e0: 0,
                e1: 0,
            },
            Err(error) => error.into(),
        }
    }
}
