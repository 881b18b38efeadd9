//! Where a reader is in the order of records, outside of elements.
ghost use Rattle.std.specs.Prelude.{◌≡◌, ◌==◌, if◌then◌else◌};
ghost use Rattle.gds_library.specs.inside.Stage.{after};

use gds_records::record_type;

/// Which record comes next. If several may, one of them gives the name.
#[derive(Clone, Copy)]
pub(crate) enum LibraryStage {
    Header,
    BgnLib,
    LibName,
    Units,
    Structures,
    StrName,
    Elements,
    Fill,
}

impl LibraryStage {
    /// The place after a record of this type, if it may come here and opens no element.
    pub(crate) fn after(self, kind: u8) -> Option<LibraryStage>
        ensures { result ≡ after self kind }
    {
        match self {
            LibraryStage::Header => only(kind, record_type::HEADER, LibraryStage::BgnLib),
            LibraryStage::BgnLib => only(kind, record_type::BGNLIB, LibraryStage::LibName),
            LibraryStage::LibName => only(kind, record_type::LIBNAME, LibraryStage::Units),
            LibraryStage::Units => only(kind, record_type::UNITS, LibraryStage::Structures),
            LibraryStage::Structures => match kind {
                record_type::ENDLIB => Some(LibraryStage::Fill),
                record_type::BGNSTR => Some(LibraryStage::StrName),
                _ => None,
            },
            LibraryStage::StrName => only(kind, record_type::STRNAME, LibraryStage::Elements),
            LibraryStage::Elements => only(kind, record_type::ENDSTR, LibraryStage::Structures),
            LibraryStage::Fill => None,
        }
    }
}

fn only(kind: u8, wanted: u8, next: LibraryStage) -> Option<LibraryStage>
    ensures { result ≡ (if kind == wanted then Some next else None) }
{
    if kind == wanted { Some(next) } else { None }
}
