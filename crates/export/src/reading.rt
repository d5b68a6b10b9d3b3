// The answer of reading as numbers.
ghost use Rattle.std.specs.Prelude.{◌≡◌, Err};
ghost use Rattle.tables.specs.Reading.{read_numbers};
ghost use Rattle.export.specs.Answers.{reading_of};

use tables::judge::Clash;
use tables::read::ReadError;
use tables::table::Table;

// As C has it: numbers alone, of which those that do not apply are 0.
#[repr(C)]
#[derive(Clone, Copy)]
pub struct BurstReading {
    pub refused: u64,
    pub place: u64,
    pub l: u64,
    pub e0: u64,
    pub e1: u64,
}

impl From<ReadError> for BurstReading {
    ghost from_gives = { λ error told. told ≡ reading_of (read_numbers (Err error)) };

    fn from(error: ReadError) -> BurstReading {
        let refused = error.into();
        match error {
            ReadError::Refused(_, place) => BurstReading {
                refused,
                place: place as u64,
                l: 0,
                e0: 0,
                e1: 0,
            },
            ReadError::Unsuitable(Clash { l, e0, e1 }) => BurstReading {
                refused,
                place: 0,
                l,
                e0,
                e1,
            },
        }
    }
}

impl From<Result<Table, ReadError>> for BurstReading {
    ghost from_gives = { λ answer told. told ≡ reading_of (read_numbers answer) };

    fn from(answer: Result<Table, ReadError>) -> BurstReading {
        match answer {
            Ok(_) => BurstReading {
                refused: 0,
                place: 0,
                l: 0,
                e0: 0,
                e1: 0,
            },
            Err(error) => error.into(),
        }
    }
}
