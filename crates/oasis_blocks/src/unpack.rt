//! Unpacks a block: tests that it is whole, and gives a reader of its bytes.
ghost use Rattle.std.specs.Prelude.{◌≡◌, ◌≢◌, ◌<◌, ◌≤◌, ◌+◌, ◌-◌, ℕ, List, [], length, take, drop, Some};
ghost use Rattle.std.specs.Prelude.{IfOk, IfErr, OnOk};
ghost use Rattle.std.specs.Io.KnownBytes.{prepend_known};
ghost use Rattle.lvl_inflate.specs.Inflates.{left_of};
ghost use Rattle.lvl_inflate.specs.Streams.{inflated};
ghost use Rattle.lvl_refusal.specs.Refused.{Says};
ghost use Rattle.oasis_blocks.specs.Unpacking.{Unpacks, UnpacksNone, Breaches};
ghost use Rattle.oasis_blocks.specs.inside.Counting.{HasCounted, Miscounts};
ghost use Rattle.oasis_blocks.specs.inside.Given.{known_rest};

use crate::block::Block;
use crate::fault::BlockRule;
use crate::slice::Slice;
use crate::stored::Stored;
use crate::unpacked::{Source, Unpacked};
use lvl_inflate::{Inflate, InflateFault, Refusal, Workspace};
use lvl_refusal::Cause;
use std::alloc::{AllocError, Global};

/// How many bytes are unpacked at a time.
const PIECE: usize = 256;

/// How many bytes a block may have that is kept unpacked, 16 MB. A longer one is unpacked twice.
const MOST_KEPT: u64 = 1 << 24;

/// How many bytes the memory that is kept for the next block has at most. A block of no more is unpacked straight into
/// it.
const MOST_SPARE: usize = 65_536;

/// Unpacks one block after another, in memory that is allocated with the first of them.
#[derive(Drop)]
pub struct Unpacker {
    workspace: Option<Workspace>,
    // memory for the bytes of the next block
    spare: Option<Vec<u8>>,
}

impl Default for Unpacker {
    fn default() -> Unpacker {
        Unpacker::new()
    }
}

impl Unpacker {
    /// It doesn't allocate.
    pub fn new() -> Unpacker {
        Unpacker {
            workspace: None,
            spare: None,
        }
    }

    /// Takes the memory of a block back for the next one, if it has at most 65,536 bytes.
    pub fn take_back(&mut self, unpacked: Unpacked) {
        if let Some(memory) = unpacked.into_memory() {
            if memory.capacity() <= MOST_SPARE {
                self.spare = Some(memory);
            }
        }
    }

    // Memory that was taken back, if there is some, with any bytes.
    fn memory(&mut self, alloc: Global) -> Vec<u8> {
        match self.spare.take() {
            Some(memory) => memory,
            None => Vec::new(alloc),
        }
    }

    // The memory of a decoder.
    fn workspace(&mut self, alloc: Global) -> Result<Workspace, AllocError> {
        match self.workspace.take() {
            Some(workspace) => Ok(workspace),
            None => Workspace::new(alloc),
        }
    }

    // A reader of what these bytes spell.
    fn begin<'a>(
        &mut self,
        alloc: Global,
        packed: &'a [u8],
    ) -> Result<Inflate<Slice<'a>>, AllocError>
        ensures { IfOk result (λ i. left_of Some i ≡ inflated packed.now) }
    {
        let workspace = self.workspace(alloc)?;
        Ok(Inflate::within(workspace, Slice::new(packed), packed.len() as u64))
    }

    // A reader of what these bytes spell, which has them.
    fn begin_with(&mut self, alloc: Global, packed: Vec<u8>) -> Result<Inflate<Stored>, AllocError>
        ensures { IfOk result (λ i. left_of known_rest i ≡ inflated packed.items) }
    {
        let workspace = self.workspace(alloc)?;
        let count = packed.len() as u64;
        Ok(Inflate::within(workspace, Stored::new(packed), count))
    }
}

// Unpacks some of the last `left` bytes, and returns how many: none only after all of them. It stops at the first byte
// that is too many.
fn next_piece(
    inflate: &mut Inflate<Slice<'_>>,
    buf: &mut [u8],
    left: u64,
) -> Result<usize, BlockRule>
    requires { 0 < length buf.old }
    ensures gives { IfOk result (λ n. left_of Some inflate.old
        ≡ prepend_known (take n buf.new) (left_of Some inflate.new)) }
    ensures bound { IfOk result (λ n. (n ≤ left) × (n ≤ length buf.new)) }
    ensures end { IfOk result (λ n. n ≡ 0 → (left ≡ 0) × (left_of Some inflate.old ≡ Some [])) }
    ensures miscounted { IfErr result (Miscounts (left_of Some inflate.old) left) }
{
    match inflate.read(buf) {
        Ok(0) if left > 0 => Err(BlockRule::BlockLength),
        Ok(n) if n as u64 > left => Err(BlockRule::BlockLength),
        Ok(n) => Ok(n),
        Err(InflateFault::Refused(Refusal::Trailing)) => Err(BlockRule::BlockLength),
        Err(_) => Err(BlockRule::Deflate),
    }
}

// Tests that exactly `count` bytes are unpacked. Few blocks need that, so the memory for them is taken here.
#[inline(never)]
fn count_bytes(inflate: &mut Inflate<Slice<'_>>, count: u64) -> Result<(), BlockRule>
    ensures counted { OnOk result (HasCounted (left_of Some inflate.old) count) }
    ensures miscounted { IfErr result (Miscounts (left_of Some inflate.old) count) }
{
    let mut buf = [0; PIECE];
    let mut left = count;
    'pieces: loop {
        match next_piece(inflate, &mut buf, left) {
            Ok(0) => return Ok(()),
            Ok(n) => left -= n as u64,
            Err(rule) => return Err(rule),
        }
    }
}

// Unpacks over some of the bytes from `at` on, and returns how many.
fn next_over(
    inflate: &mut Inflate<Slice<'_>>,
    bytes: &mut [u8],
    at: usize,
) -> Result<usize, BlockRule>
    requires { at < length bytes.old }
    ensures gives { IfOk result (λ n. left_of Some inflate.old
        ≡ prepend_known (take n (drop at bytes.new)) (left_of Some inflate.new)) }
    ensures front { take at bytes.new ≡ take at bytes.old }
    ensures same { length bytes.new ≡ length bytes.old }
    ensures bound { IfOk result (λ n. (0 < n) × (at + n ≤ length bytes.old)) }
    ensures miscounted { IfErr result (Miscounts (left_of Some inflate.old) (length bytes.old - at)) }
{
    let left = bytes.len() - at;
    next_piece(inflate, &mut bytes[at..], left as u64)
}

// Unpacks exactly as many bytes as these, over them.
fn unpack_over(inflate: &mut Inflate<Slice<'_>>, bytes: &mut [u8]) -> Result<(), BlockRule>
    ensures kept { OnOk result (left_of Some inflate.old ≡ Some bytes.new) }
    ensures same { length bytes.new ≡ length bytes.old }
    ensures miscounted { IfErr result (Miscounts (left_of Some inflate.old) (length bytes.old)) }
{
    let mut at = 0;
    'pieces: while at < bytes.len() {
        match next_over(inflate, bytes, at) {
            Ok(n) => at += n,
            Err(rule) => return Err(rule),
        }
    }
    if inflate.is_over() {
        return Ok(());
    }
    count_bytes(inflate, 0)
}

// Exactly `count` bytes, unpacked into this memory.
fn keep_few(
    inflate: &mut Inflate<Slice<'_>>,
    count: usize,
    memory: Vec<u8>,
) -> Result<Vec<u8>, Cause<BlockRule>>
    ensures kept { IfOk result (λ bytes. (left_of Some inflate.old ≡ Some bytes.items)
        × (length bytes.items ≡ count)) }
    ensures miscounted { IfErr result (λ e. Says e (Miscounts (left_of Some inflate.old) count)) }
{
    let mut bytes = memory;
    bytes.resize(count, 0)?;
    match unpack_over(inflate, &mut bytes[..]) {
        Ok(()) => Ok(bytes),
        Err(rule) => Err(Cause::Breach(rule)),
    }
}

// Exactly `count` bytes, unpacked into this memory, which grows with them.
#[inline(never)]
fn keep_bytes(
    inflate: &mut Inflate<Slice<'_>>,
    count: u64,
    memory: Vec<u8>,
) -> Result<Vec<u8>, Cause<BlockRule>>
    ensures kept { IfOk result (λ bytes. (left_of Some inflate.old ≡ Some bytes.items)
        × (length bytes.items ≡ count)) }
    ensures miscounted { IfErr result (λ e. Says e (Miscounts (left_of Some inflate.old) count)) }
{
    let mut bytes = memory;
    bytes.clear();
    let mut buf = [0; PIECE];
    let mut left = count;
    'pieces: loop {
        match next_piece(inflate, &mut buf, left) {
            Ok(0) => return Ok(bytes),
            Ok(n) => {
                bytes.extend_from_slice(&buf[..n])?;
                left -= n as u64;
            }
            Err(rule) => return Err(Cause::Breach(rule)),
        }
    }
}

// Exactly `count` bytes, unpacked into this memory.
fn keep(
    inflate: &mut Inflate<Slice<'_>>,
    count: u64,
    memory: Vec<u8>,
) -> Result<Vec<u8>, Cause<BlockRule>>
    ensures kept { IfOk result (λ bytes. (left_of Some inflate.old ≡ Some bytes.items)
        × (length bytes.items ≡ count)) }
    ensures miscounted { IfErr result (λ e. Says e (Miscounts (left_of Some inflate.old) count)) }
{
    if count <= MOST_SPARE as u64 {
        keep_few(inflate, count as usize, memory)
    } else {
        keep_bytes(inflate, count, memory)
    }
}

impl Block {
    /// A reader of the bytes of the block, which may have at most `room`. All of them are unpacked before, to test the
    /// block. At most 16 MB are then kept; a longer block is unpacked again as it is read.
    pub fn unpack(
        self,
        alloc: Global,
        unpacker: &mut Unpacker,
        room: u64,
    ) -> Result<Unpacked, Cause<BlockRule>>
        ensures unpacks { IfOk result (λ u. Unpacks self u) }
        ensures within { IfOk result (λ u. length u ≤ room) }
        ensures refused { IfErr result (λ e. Says e (Breaches room self)) }
        ensures none { IfErr result (λ e. Says e (λ _. UnpacksNone room self)) }
    {
        let Block {
            count,
            bytes: packed,
        } = self;
        if count > room {
            return Err(Cause::Breach(BlockRule::TooLong));
        }
        let memory = unpacker.memory(alloc);
        let mut inflate = unpacker.begin(alloc, &packed)?;
        if count <= MOST_KEPT {
            let bytes = keep(&mut inflate, count, memory)?;
            unpacker.workspace = Some(inflate.into_workspace());
            return Ok(Unpacked {
                source: Source::Plain(Stored::new(bytes)),
            });
        }
        if let Err(rule) = count_bytes(&mut inflate, count) {
            return Err(Cause::Breach(rule));
        }
        unpacker.workspace = Some(inflate.into_workspace());
        let again = unpacker.begin_with(alloc, packed)?;
        Ok(Unpacked {
            source: Source::Packed(Box::new(alloc, again)?),
        })
    }
}
