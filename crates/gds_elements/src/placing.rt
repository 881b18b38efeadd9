//! The cell of a reference and its placing: SNAME [STRANS [MAG] [ANGLE]], in an SREF and an AREF.
ghost use Rattle.std.specs.Prelude.{◌≡◌, ◌≢◌, ◌==◌, [], false, IfOk, IfErr, OnOk, IfSome, IfNone, if◌then◌else◌};
ghost use Rattle.lvl_grid.specs.declared.map.Turn.{Turn as GridTurn};
ghost use Rattle.gds_elements.specs.Types.{sname, strans, mag, angle};
ghost use Rattle.gds_elements.specs.Values.{bits, name, flips, turn, one_real, degrees};
ghost use Rattle.lvl_names.specs.Names.{IsName};
ghost use Rattle.gds_elements.specs.inside.Formed.{IsFormed};
ghost use Rattle.gds_elements.specs.inside.Placing.{IsPlacingFault, IsPlacingAllowed};
ghost use Rattle.lvl_refusal.specs.Refused.{Says};
ghost use Rattle.gds_elements.specs.inside.Misplaced.{Broken, breach};

use crate::fault::{ElementFault, ElementRule, breach};
use crate::values::{bits, name};
use gds_records::record_type;
use lvl_grid::Turn;
use lvl_names::is_name;
use lvl_refusal::Cause;
use std::alloc::Global;

/// The eight-byte real 1.
const ONE: [u8; 8] = [0x41, 0x10, 0, 0, 0, 0, 0, 0];

/// The degrees of the four turns as eight-byte reals.
const DEGREES_0: [u8; 8] = [0, 0, 0, 0, 0, 0, 0, 0];

const DEGREES_90: [u8; 8] = [0x42, 0x5A, 0, 0, 0, 0, 0, 0];

const DEGREES_180: [u8; 8] = [0x42, 0xB4, 0, 0, 0, 0, 0, 0];

const DEGREES_270: [u8; 8] = [0x43, 0x10, 0xE0, 0, 0, 0, 0, 0];

/// The name of a cell, and how it is reflected and turned.
#[derive(Drop)]
pub(crate) struct Placing {
    pub name: Vec<u8>,
    pub flip: bool,
    pub turn: Turn,
}

impl Placing {
    pub(crate) fn new(alloc: Global) -> Placing
        ensures name { result.name.items ≡ [] }
        ensures flip { result.flip ≡ false }
        ensures turn { result.turn ≡ Turn.R0 }
    {
        Placing {
            name: Vec::new(alloc),
            flip: false,
            turn: Turn::R0,
        }
    }

    /// Reads one more record, unless it breaches a rule.
    pub(crate) fn read(
        &mut self,
        alloc: Global,
        kind: u8,
        payload: &[u8],
    ) -> Result<(), Cause<ElementFault>>
        requires { IsFormed kind payload.now }
        ensures name { OnOk result
            (self.new.name.items ≡ (if kind == sname then name payload.now else self.old.name.items)) }
        ensures flip { OnOk result (self.new.flip ≡ (if kind == strans then flips payload.now else self.old.flip)) }
        ensures turn { OnOk result (self.new.turn ≡ (if kind == angle then turn payload.now else self.old.turn)) }
        ensures allowed { OnOk result (IsPlacingAllowed kind payload.now) }
        ensures refused { IfErr result (λ e. Says e (Broken (IsPlacingFault kind payload.now))) }
    {
        self.flip = read_flip(self.flip, kind, payload)?;
        check_magnification(kind, payload)?;
        self.turn = read_turn(self.turn, kind, payload)?;
        if kind == record_type::SNAME {
            self.name = cell_name(alloc, payload)?;
        }
        Ok(())
    }
}

/// The name in an SNAME.
fn cell_name(alloc: Global, payload: &[u8]) -> Result<Vec<u8>, Cause<ElementFault>>
    ensures value { IfOk result (λ v. v.items ≡ name payload.now) }
    ensures allowed { OnOk result (IsName (name payload.now)) }
    ensures refused { IfErr result
        (λ e. Says e (Broken (λ k. (k ≡ ElementRule.Name) × ¬ IsName (name payload.now)))) }
{
    let name = name(payload);
    if !is_name(name) {
        return Err(breach(ElementRule::Name));
    }
    Ok(Vec::from_slice(alloc, name)?)
}

fn read_flip(old: bool, kind: u8, payload: &[u8]) -> Result<bool, Cause<ElementFault>>
    requires { IsFormed kind payload.now }
    ensures value { IfOk result (λ flip. flip ≡ (if kind == strans then flips payload.now else old)) }
    ensures allowed { OnOk result (kind ≡ strans → (bits payload.now ≢ 0) → bits payload.now ≡ 0x8000) }
    ensures refused { IfErr result (λ e. (e ≡ breach ElementRule.Strans) × (kind ≡ strans)
        × (bits payload.now ≢ 0) × (bits payload.now ≢ 0x8000)) }
{
    if kind != record_type::STRANS {
        return Ok(old);
    }
    match bits(payload) {
        0 => Ok(false),
        0x8000 => Ok(true),
        _ => Err(breach(ElementRule::Strans)),
    }
}

fn check_magnification(kind: u8, payload: &[u8]) -> Result<(), Cause<ElementFault>>
    ensures allowed { OnOk result (kind ≡ mag → payload.now ≡ one_real) }
    ensures refused { IfErr result (λ e. (e ≡ breach ElementRule.Magnification) × (kind ≡ mag)
        × (payload.now ≢ one_real)) }
{
    if kind == record_type::MAG && payload != ONE.as_slice() {
        return Err(breach(ElementRule::Magnification));
    }
    Ok(())
}

fn read_turn(old: Turn, kind: u8, payload: &[u8]) -> Result<Turn, Cause<ElementFault>>
    ensures value { IfOk result (λ t. t ≡ (if kind == angle then turn payload.now else old)) }
    ensures allowed { OnOk result (kind ≡ angle → payload.now ≡ degrees (turn payload.now)) }
    ensures refused { IfErr result (λ e. (e ≡ breach ElementRule.Angle) × (kind ≡ angle)
        × ((t : GridTurn) → payload.now ≢ degrees t)) }
{
    if kind != record_type::ANGLE {
        return Ok(old);
    }
    match turn(payload) {
        Some(turn) => Ok(turn),
        None => Err(breach(ElementRule::Angle)),
    }
}

/// The turn by an angle in degrees; `None` for any other payload.
fn turn(payload: &[u8]) -> Option<Turn>
    ensures some { IfSome result (λ t. (payload.now ≡ degrees t) × (t ≡ turn payload.now)) }
    ensures none { IfNone result ((t : GridTurn) → payload.now ≢ degrees t) }
{
    if payload == DEGREES_90.as_slice() {
        return Some(Turn::R90);
    }
    if payload == DEGREES_180.as_slice() {
        return Some(Turn::R180);
    }
    if payload == DEGREES_270.as_slice() {
        return Some(Turn::R270);
    }
    if payload == DEGREES_0.as_slice() {
        return Some(Turn::R0);
    }
    None
}
