//! What a file says about itself.
ghost use Rattle.std.specs.Prelude.{◌≡◌};
ghost use Rattle.oasis_values.specs.declared.number.Real.TheVariants.{Whole};
ghost use Rattle.oasis_records.specs.declared.end.Validation.TheVariants.{Absent};
ghost use Rattle.oasis_stream.specs.Order.{last_or};
ghost use Rattle.oasis_library.specs.Head.{head, unit_in, validation_in};

use oasis_records::{Record, Validation};
use oasis_values::Real;

/// The unit in START, and the validation in END (SEMI P39, "START record", "END record"). The signature
/// isn't checked.
#[derive(Clone, Copy, Debug, PartialEq, Eq)]
pub struct OasisHead {
    /// The number of grid steps in a micrometre.
    pub unit: Real,
    /// The validation scheme: 0 for none, 1 for CRC32, 2 for checksum32.
    pub scheme: u8,
    /// The bytes of the signature in the order of the file; four zero bytes for scheme 0.
    pub signature: [u8; 4],
}

/// What START and END have said so far.
#[derive(Clone, Copy, Drop)]
pub(crate) struct HeadRecords {
    unit: Real,
    validation: Validation,
}

impl HeadRecords {
    /// Neither has been read.
    pub(crate) fn new() -> HeadRecords
        ensures unit { result.unit ≡ Whole 0 }
        ensures validation { result.validation ≡ Absent }
    {
        HeadRecords {
            unit: Real::Whole(0),
            validation: Validation::Absent,
        }
    }

    /// Takes what the record says, if it is START or END.
    pub(crate) fn pass(&mut self, taken: &Record)
        ensures unit { self.new.unit ≡ last_or self.old.unit (unit_in taken.now) }
        ensures validation { self.new.validation ≡ last_or self.old.validation (validation_in taken.now) }
    {
        match taken {
            Record::Start(start) => self.unit = start.unit,
            Record::End(validation) => self.validation = *validation,
            _ => {}
        }
    }

    /// The head of the file.
    pub(crate) fn head(&self) -> OasisHead
        ensures { result ≡ head self.now.unit self.now.validation }
    {
        let unit = self.unit;
        match self.validation {
            Validation::Absent => OasisHead {
                unit,
                scheme: 0,
                signature: [0; 4],
            },
            Validation::Crc32(signature) => OasisHead {
                unit,
                scheme: 1,
                signature,
            },
            Validation::Checksum32(signature) => OasisHead {
                unit,
                scheme: 2,
                signature,
            },
        }
    }
}
