//! COLROW: how many columns and rows an array has.
ghost use Rattle.std.specs.Prelude.{◌≡◌, ◌==◌, ◌≤◌, ◌<◌, ◌*◌, ◌<ℤ◌, pos, IfOk, IfErr, OnOk, length, if◌then◌else◌};
ghost use Rattle.gds_elements.specs.Types.{colrow};
ghost use Rattle.gds_elements.specs.Values.{short, magnitude, columns, rows};
ghost use Rattle.gds_elements.specs.inside.Formed.{IsFormed};
ghost use Rattle.gds_elements.specs.inside.Counts.{IsCounted, IsCountFault};
ghost use Rattle.lvl_refusal.specs.Refused.{Says};
ghost use Rattle.gds_elements.specs.inside.Misplaced.{Broken, breach};

use crate::fault::{ElementFault, ElementRule, breach};
use crate::values::short;
use gds_records::record_type;
use lvl_profile::Limits;
use lvl_refusal::Cause;

/// How many columns and rows an array has, at least one of each, and at most 32,767.
#[derive(Clone, Copy)]
pub(crate) struct Counts {
    pub columns: u64,
    pub rows: u64,
    ghost some_columns: { 0 < columns },
    ghost some_rows: { 0 < rows },
    ghost few_columns: { columns < 32768 },
    ghost few_rows: { rows < 32768 },
}

/// How many columns and rows, after one more record. Only a COLROW changes them.
pub(crate) fn read_counts(
    old: Counts,
    limits: Limits,
    kind: u8,
    payload: &[u8],
) -> Result<Counts, Cause<ElementFault>>
    requires { IsFormed kind payload.now }
    ensures columns { IfOk result
        (λ n. n.columns ≡ (if kind == colrow then magnitude (columns payload.now) else old.columns)) }
    ensures rows { IfOk result (λ n. n.rows ≡ (if kind == colrow then magnitude (rows payload.now) else old.rows)) }
    ensures allowed { OnOk result (kind ≡ colrow → IsCounted limits payload.now) }
    ensures refused { IfErr result (λ e. Says e (Broken (λ k. (kind ≡ colrow) × IsCountFault limits payload.now k))) }
{
    if kind != record_type::COLROW {
        return Ok(old);
    }
    let (columns, rows) = payload.split_at(2);
    let columns = count(columns)?;
    let rows = count(rows)?;
    if columns * rows > limits.array {
        return Err(breach(ElementRule::Repetition));
    }
    Ok(Counts { columns, rows })
}

/// A number of columns or of rows; refused if it is below one.
fn count(bytes: &[u8]) -> Result<u64, Cause<ElementFault>>
    requires { length bytes.now ≡ 2 }
    ensures value { IfOk result (λ n. (n ≡ magnitude (short bytes.now)) × (0 < n) × (n < 32768)) }
    ensures refused { IfErr result (λ e. (e ≡ breach ElementRule.ColRow) × (short bytes.now <ℤ pos 1)) }
{
    match u64::try_from(short(bytes)) {
        Ok(0) | Err(_) => Err(breach(ElementRule::ColRow)),
        Ok(number) => Ok(number),
    }
}
