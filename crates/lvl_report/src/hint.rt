//! What would mend a refusal: to ignore more, to lift limits, to read compressed blocks, or to use another program.
ghost use Rattle.std.specs.Prelude.{◌≡◌};
ghost use Rattle.lvl_report.specs.Hints.{reads_record, reads_spelling, is_read_by, with_one_more, first_that_reads};
ghost use Rattle.lvl_report.specs.Hints.{to_ignore, is_headless, of_first, of_block, of_packed, ignore_or};
ghost use Rattle.lvl_report.specs.Hints.{lifts_gds, lifts_oasis, lifts_file, lifts_cells};
ghost use Rattle.lvl_report.specs.Hints.{hint_of, hint_of_file};

use gds_library::{ElementRule, GdsKind, Misplaced, RecordFault};
use gds_records::is_ignored;
use lvl::{FileFault, Refusal};
use lvl_cells::CellFault;
use lvl_path::PathFault;
use lvl_profile::{Ignore, Limits, Profile};
use oasis_library::{BlockRule, FigureRule, OasisFault, OasisKind, RecordRule, ValueFault};
use oasis_records::RecordType;

/// The id of a CBLOCK (SEMI P39, "CBLOCK record").
const CBLOCK: u64 = 34;

/// What would mend a refusal (own rule).
#[derive(Clone, Copy, Debug, PartialEq, Eq)]
pub enum Hint {
    /// To ignore this, one word more than before: then records of the kind that was refused are read, integers of
    /// more bytes, or points that equal the one before. Its value or its place may still be refused.
    IgnoreMore(Ignore),
    /// To take the limits for whole chips, [`Limits::LARGE`]: the limit that refuses is higher there.
    LiftLimits,
    /// To give another file: it begins neither with a record of GDSII nor as OASIS does, so it may be
    /// compressed, or of another format.
    Foreign,
    /// To read the compressed blocks of an OASIS file (CBLOCK).
    ReadBlocks,
}

/// Whether records of the kind for which a GDSII file is refused, or points that equal the one before, are read under
/// the profile.
fn reads_record(profile: Profile, kind: &GdsKind) -> bool
    ensures { result ≡ reads_record profile kind.now }
{
    match kind {
        GdsKind::Misplaced(Misplaced::Unsupported(kind)) => is_ignored(profile.ignore, *kind),
        GdsKind::Element(ElementRule::Path(PathFault::RepeatedPoint)) => profile.ignore.points,
        _ => false,
    }
}

/// Whether records of the kind for which an OASIS file is refused, longer integers, or points that equal the one
/// before, are read under the profile.
fn reads_spelling(profile: Profile, kind: &OasisKind) -> bool
    ensures { result ≡ reads_spelling profile kind.now }
{
    match kind {
        OasisKind::Value(ValueFault::IntegerTooLarge) => profile.ignore.padding,
        OasisKind::Record(RecordRule::Unsupported(id)) => RecordType::of(*id, profile).is_ok(),
        OasisKind::Figure(FigureRule::Path(PathFault::RepeatedPoint)) => profile.ignore.points,
        _ => false,
    }
}

/// Whether that holds for a file of either format.
fn is_read_by(profile: Profile, fault: &FileFault) -> bool
    ensures { result ≡ is_read_by profile fault.now }
{
    match fault {
        FileFault::Gds(fault) => reads_record(profile, &fault.kind),
        FileFault::Oasis(OasisFault::At { kind, .. }) => reads_spelling(profile, kind),
        FileFault::Oasis(OasisFault::Unresolved(_)) => false,
    }
}

/// The sets with one more word than `given`, in the order of the words.
fn with_one_more(given: Ignore) -> [Ignore; 5]
    ensures { result ≡ with_one_more given }
{
    [
        Ignore {
            properties: true,
            ..given
        },
        Ignore {
            texts: true,
            ..given
        },
        Ignore {
            names: true,
            ..given
        },
        Ignore {
            padding: true,
            ..given
        },
        Ignore {
            points: true,
            ..given
        },
    ]
}

/// The first of the sets with which these are read, if nothing else is changed.
fn first_that_reads(given: Profile, fault: &FileFault, sets: &[Ignore]) -> Option<Ignore>
    ensures { result ≡ first_that_reads given fault.now sets.now }
{
    for more in sets {
        let profile = Profile {
            ignore: *more,
            ..given
        };
        if is_read_by(profile, fault) {
            return Some(*more);
        }
    }
    None
}

/// What to ignore so that they are read; `None` if they are read already, or if no word would change that.
fn to_ignore(given: Profile, fault: &FileFault) -> Option<Ignore>
    ensures { result ≡ to_ignore given fault.now }
{
    if is_read_by(given, fault) {
        return None;
    }
    first_that_reads(given, fault, &with_one_more(given.ignore))
}

/// Whether a GDSII file is refused by a limit that is lower than the one for whole chips.
fn lifts_gds(given: Limits, kind: &GdsKind) -> bool
    ensures { result ≡ lifts_gds given kind.now }
{
    match kind {
        GdsKind::Record(RecordFault::TooLong) => given.file < Limits::LARGE.file,
        GdsKind::Element(ElementRule::Repetition) => given.array < Limits::LARGE.array,
        GdsKind::TooManyCells => given.cells < Limits::LARGE.cells,
        _ => false,
    }
}

/// Whether an OASIS file is refused by a limit that is lower than the one for whole chips.
fn lifts_oasis(given: Limits, kind: &OasisKind) -> bool
    ensures { result ≡ lifts_oasis given kind.now }
{
    match kind {
        OasisKind::Value(ValueFault::TooLong) => given.file < Limits::LARGE.file,
        OasisKind::Block(BlockRule::TooLong) => given.file < Limits::LARGE.file,
        OasisKind::Value(ValueFault::RepetitionSize) => given.placed < Limits::LARGE.placed,
        OasisKind::TooManyCells => given.cells < Limits::LARGE.cells,
        _ => false,
    }
}

/// Whether a file of either format is refused by a limit that is lower than the one for whole chips.
fn lifts_file(given: Limits, fault: &FileFault) -> bool
    ensures { result ≡ lifts_file given fault.now }
{
    match fault {
        FileFault::Gds(fault) => lifts_gds(given, &fault.kind),
        FileFault::Oasis(OasisFault::At { kind, .. }) => lifts_oasis(given, kind),
        FileFault::Oasis(OasisFault::Unresolved(_)) => false,
    }
}

/// Whether a library is refused by such a limit.
fn lifts_cells(given: Limits, fault: &CellFault) -> bool
    ensures { result ≡ lifts_cells given fault.now }
{
    match fault {
        CellFault::TooManyPlacements | CellFault::TooManyRings => {
            given.placed < Limits::LARGE.placed
        }
        _ => false,
    }
}

/// Whether the fault is one of the header of a record, other than that the input ends.
fn is_headless(fault: RecordFault) -> bool
    ensures { result ≡ is_headless fault }
{
    matches!(
        fault,
        RecordFault::BadLength | RecordFault::BadDataType | RecordFault::UnknownRecord
    )
}

/// The hint for a GDSII file whose first record has a faulty header.
fn of_first(offset: u64, kind: &GdsKind) -> Option<Hint>
    ensures { result ≡ of_first offset kind.now }
{
    match kind {
        GdsKind::Record(fault) if offset == 0 && is_headless(*fault) => Some(Hint::Foreign),
        _ => None,
    }
}

/// The hint for an OASIS file with a CBLOCK, if blocks aren't read.
fn of_block(given: Profile, kind: &OasisKind) -> Option<Hint>
    ensures { result ≡ of_block given kind.now }
{
    match kind {
        OasisKind::Record(RecordRule::Unsupported(CBLOCK)) if !given.unpack => {
            Some(Hint::ReadBlocks)
        }
        _ => None,
    }
}

/// The hint at a file or a part of it that is packed.
fn of_packed(given: Profile, fault: &FileFault) -> Option<Hint>
    ensures { result ≡ of_packed given fault.now }
{
    match fault {
        FileFault::Gds(fault) => of_first(fault.offset, &fault.kind),
        FileFault::Oasis(OasisFault::At { kind, .. }) => of_block(given, kind),
        FileFault::Oasis(OasisFault::Unresolved(_)) => None,
    }
}

/// The hint for a file that is refused.
fn hint_of_file(given: Profile, fault: &FileFault) -> Option<Hint>
    ensures { result ≡ hint_of_file given fault.now }
{
    if lifts_file(given.limits, fault) {
        return Some(Hint::LiftLimits);
    }
    match to_ignore(given, fault) {
        Some(more) => Some(Hint::IgnoreMore(more)),
        None => of_packed(given, fault),
    }
}

/// The hint if a file is refused. `given` is its profile.
pub(crate) fn hint_of(given: Profile, refusal: &Refusal) -> Option<Hint>
    ensures { result ≡ hint_of given refusal.now }
{
    match refusal {
        Refusal::File(_, fault) => hint_of_file(given, fault),
        Refusal::Cells(_, refused) if lifts_cells(given.limits, &refused.fault) => {
            Some(Hint::LiftLimits)
        }
        _ => None,
    }
}
