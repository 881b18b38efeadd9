//! The types of records, by their ids.
ghost use Rattle.std.specs.Prelude.{◌≡◌};
ghost use Rattle.oasis_records.specs.Records.{record_type, type_if};

use crate::fault::RecordRule;
use crate::names::EntryType;
use lvl_profile::Profile;
use oasis_values::Text;

/// The types of records that are read. Some are only read to be ignored.
#[derive(Clone, Copy, Debug, Drop, PartialEq, Eq)]
pub enum RecordType {
    Pad,
    Start,
    End,
    /// A CELLNAME without a number: its number is the number of such records before it.
    CellName,
    /// A CELLNAME with a number of its own.
    NumberedCellName,
    /// A CELL by the number of its name.
    NumberedCell,
    /// A CELL by its name.
    NamedCell,
    /// A record that gives a name or a string by number, except CELLNAME.
    Entry(EntryType),
    Text,
    Property,
    /// A PROPERTY that repeats the last one.
    LastProperty,
    XyAbsolute,
    XyRelative,
    /// A PLACEMENT with a turn by right angles.
    Placement,
    /// A PLACEMENT with a magnification and an angle.
    ScaledPlacement,
    Rectangle,
    Polygon,
    Path,
    /// A CBLOCK.
    Block,
}

// The type, if records of it are read, else `Unsupported`.
fn type_if(is_read: bool, kind: RecordType, id: u64) -> Result<RecordType, RecordRule>
    ensures { result ≡ type_if is_read kind id }
{
    if is_read {
        Ok(kind)
    } else {
        Err(RecordRule::Unsupported(id))
    }
}

impl RecordType {
    /// The type of records with this id (SEMI P39, "Records"). It is `Unsupported` except for 0 to 4, 13 to
    /// 18 and 20 to 22, and for those that are ignored: 11, 12, 30 and 31 as names, 5, 6 and 19 as texts, 7
    /// to 10, 28 and 29 as properties, and for 34, a block, if the profile unpacks blocks.
    #[inline(always)]
    pub fn of(id: u64, profile: Profile) -> Result<RecordType, RecordRule>
        ensures { result ≡ record_type profile id }
    {
        match id {
            0 => Ok(RecordType::Pad),
            1 => Ok(RecordType::Start),
            2 => Ok(RecordType::End),
            3 => Ok(RecordType::CellName),
            4 => Ok(RecordType::NumberedCellName),
            5 => type_if(
                profile.ignore.texts,
                RecordType::Entry(EntryType::String(Text::A)),
                id,
            ),
            6 => type_if(
                profile.ignore.texts,
                RecordType::Entry(EntryType::NumberedString(Text::A)),
                id,
            ),
            7 => type_if(
                profile.ignore.properties,
                RecordType::Entry(EntryType::String(Text::N)),
                id,
            ),
            8 => type_if(
                profile.ignore.properties,
                RecordType::Entry(EntryType::NumberedString(Text::N)),
                id,
            ),
            9 => type_if(
                profile.ignore.properties,
                RecordType::Entry(EntryType::String(Text::B)),
                id,
            ),
            10 => type_if(
                profile.ignore.properties,
                RecordType::Entry(EntryType::NumberedString(Text::B)),
                id,
            ),
            11 | 12 => type_if(
                profile.ignore.names,
                RecordType::Entry(EntryType::LayerName),
                id,
            ),
            13 => Ok(RecordType::NumberedCell),
            14 => Ok(RecordType::NamedCell),
            15 => Ok(RecordType::XyAbsolute),
            16 => Ok(RecordType::XyRelative),
            17 => Ok(RecordType::Placement),
            18 => Ok(RecordType::ScaledPlacement),
            19 => type_if(profile.ignore.texts, RecordType::Text, id),
            20 => Ok(RecordType::Rectangle),
            21 => Ok(RecordType::Polygon),
            22 => Ok(RecordType::Path),
            28 => type_if(profile.ignore.properties, RecordType::Property, id),
            29 => type_if(profile.ignore.properties, RecordType::LastProperty, id),
            30 => type_if(
                profile.ignore.names,
                RecordType::Entry(EntryType::XName),
                id,
            ),
            31 => type_if(
                profile.ignore.names,
                RecordType::Entry(EntryType::NumberedXName),
                id,
            ),
            34 => type_if(profile.unpack, RecordType::Block, id),
            _ => Err(RecordRule::Unsupported(id)),
        }
    }
}
