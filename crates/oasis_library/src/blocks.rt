//! Takes blocks: the records inside, one after another.
ghost use Rattle.std.specs.Prelude.{◌≡◌, ◌≤◌, ◌∷◌, [], ◌++◌, false, length, ℕ, IfErr, List, OnOk, Some};
ghost use Rattle.lvl_refusal.specs.Refused.{Says};
ghost use Rattle.lvl_grammar.specs.Front.{SpellsWhole};
ghost use Rattle.oasis_values.specs.Input.{bytes_left, has_failed, input_offset, input_profile};
ghost use Rattle.oasis_records.specs.declared.record.Record.{Record as ARecord};
ghost use Rattle.oasis_stream.specs.Items.{Item, item, block};
ghost use Rattle.oasis_stream.specs.Blocks.{inside, cause, HasInside, StopsInside, BlockBreaches};
ghost use Rattle.oasis_stream.specs.Front.{Breaches};
ghost use Rattle.oasis_library.specs.inside.Holds.{Holds, HasRead};
ghost use Rattle.oasis_library.specs.inside.Blocks.{of_block, in_block, IsKept, HasMoreInside};

use crate::reading::Reading;
use lvl_profile::Profile;
use lvl_refusal::Cause;
use oasis_blocks::{Block, BlockRule, Unpacked};
use oasis_records::Record;
use oasis_stream::{OasisKind, read_inside};
use oasis_values::{Input, ValueFault};
use std::alloc::Global;
use std::mem;

/// A refusal with a rule of blocks, as one of the file.
fn of_block(refusal: Cause<BlockRule>) -> Cause<OasisKind>
    ensures { result ≡ of_block refusal }
{
    match refusal {
        Cause::Breach(rule) => Cause::Breach(OasisKind::Block(rule)),
        Cause::OutOfMemory => Cause::OutOfMemory,
    }
}

/// A refusal inside a block, as that of the block: one that ends within a record has too few bytes.
fn in_block(refusal: Cause<OasisKind>) -> Cause<OasisKind>
    ensures { result ≡ in_block refusal }
{
    match refusal {
        Cause::Breach(OasisKind::Value(ValueFault::Truncated)) => {
            Cause::Breach(OasisKind::Block(BlockRule::BlockLength))
        }
        refusal => refusal,
    }
}

/// Takes all records inside a block, whose `count` bytes are the input.
fn take_inside(
    alloc: Global,
    reading: &mut Reading,
    input: &mut Input<Unpacked>,
    count: u64,
) -> Result<(), Cause<OasisKind>>
    requires held { (rs : List ARecord) × Holds reading.old rs }
    requires fresh { has_failed input.old ≡ false }
    requires start { input_offset input.old ≡ 0 }
    requires counted { (ys : List ℕ) → bytes_left Some input.old ≡ Some ys → length ys ≡ count }
    requires within { count ≤ (input_profile input.old).limits.file }
    ensures refused { IfErr result (λ e. Says e (λ kind. (rs : List ARecord) (ys : List ℕ) → Holds reading.old rs
        → bytes_left Some input.old ≡ Some ys → StopsInside (input_profile input.old) rs ys (cause kind))) }
    ensures whole { OnOk result ((rs : List ARecord) (ys : List ℕ) → Holds reading.old rs
        → bytes_left Some input.old ≡ Some ys → HasMoreInside (input_profile input.old) rs ys reading.new) }
    ensures room { OnOk result (reading.new.room ≡ reading.old.room) }
{
    let profile = input.profile();
    let mut record = Record::Pad;
    'records: while input.offset() < count {
        match read_inside(input, alloc, reading.order(), &mut record) {
            Ok(()) => {}
            Err(refusal) => return Err(in_block(refusal)),
        }
        reading.take(alloc, profile, &mut record)?;
    }
    Ok(())
}

/// Takes a block, unless it breaches a rule. Its records are read from `input`, which begins anew for each block: to
/// make one costs more than a small block.
fn take_block(
    alloc: Global,
    reading: &mut Reading,
    input: &mut Input<Unpacked>,
    packed: Block,
    profile: Profile,
) -> Result<(), Cause<OasisKind>>
    requires { (is : List Item) × HasRead profile reading.old is }
    ensures refused { IfErr result (λ e. Says e (λ kind.
        (is : List Item) → HasRead profile reading.old is → BlockBreaches profile is packed (cause kind))) }
    ensures kept { OnOk result ((is : List Item) → HasRead profile reading.old is → (rs : List ARecord)
        × HasInside profile is packed rs × HasRead profile reading.new (is ++ block packed rs ∷ [])) }
{
    let count = packed.count();
    let unpacked = match packed.unpack(alloc, &mut reading.unpacker, reading.room) {
        Ok(unpacked) => unpacked,
        Err(refusal) => return Err(of_block(refusal)),
    };
    drop(input.begin(unpacked, profile));
    take_inside(alloc, reading, input, count)?;
    let taken = input.begin(Unpacked::new(alloc), profile);
    reading.unpacker.take_back(taken);
    reading.room -= count;
    Ok(())
}

/// Takes the next record, or the records inside if it is a block, unless it breaches a rule. Those inside are read from
/// `inside`. What is left in `next` means nothing.
pub(crate) fn take_next(
    alloc: Global,
    reading: &mut Reading,
    inside: &mut Input<Unpacked>,
    next: &mut Record,
    profile: Profile,
) -> Result<(), Cause<OasisKind>>
    requires { (is : List Item) × HasRead profile reading.old is }
    ensures refused { IfErr result (λ e. Says e (λ kind.
        (is : List Item) → HasRead profile reading.old is → Breaches profile is (item next.old) (cause kind))) }
    ensures kept { OnOk result ((is : List Item) → HasRead profile reading.old is
        → IsKept profile is next.old reading.new) }
{
    match next {
        Record::Block(_) => {
            let moved = mem::replace(next, Record::Pad);
            take_moved(alloc, reading, inside, moved, profile)
        }
        _ => reading.take(alloc, profile, next),
    }
}

// Takes the next record, which was moved.
#[inline(never)]
fn take_moved(
    alloc: Global,
    reading: &mut Reading,
    inside: &mut Input<Unpacked>,
    next: Record,
    profile: Profile,
) -> Result<(), Cause<OasisKind>>
    requires { (is : List Item) × HasRead profile reading.old is }
    ensures refused { IfErr result (λ e. Says e (λ kind.
        (is : List Item) → HasRead profile reading.old is → Breaches profile is (item next) (cause kind))) }
    ensures kept { OnOk result ((is : List Item) → HasRead profile reading.old is
        → IsKept profile is next reading.new) }
{
    match next {
        Record::Block(packed) => take_block(alloc, reading, inside, packed, profile),
        mut other => reading.take(alloc, profile, &mut other),
    }
}
