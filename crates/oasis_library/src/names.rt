//! The names in CELLNAME records, by their numbers.
ghost use Rattle.std.specs.Prelude.{◌≡◌, [], ◌∷◌, ◌++◌, List, IfErr, OnOk, option_copied};
ghost use Rattle.lvl_refusal.specs.Refused.{Says};
ghost use Rattle.oasis_records.specs.declared.cell.CellName.{CellName as Given};
ghost use Rattle.oasis_stream.specs.Names.{name_of};
ghost use Rattle.oasis_stream.specs.Order.{name_in};
ghost use Rattle.oasis_stream.specs.Rules.{NameBreaches, NamingBreaches};
ghost use Rattle.oasis_stream.specs.declared.fault.NameRule.{NameRule as Rule};
ghost use Rattle.oasis_library.specs.inside.Holds.{HoldsNames};

use lvl_names::Name;
use lvl_refusal::Cause;
use oasis_records::{CellName, Record};
use oasis_stream::NameRule;
use std::alloc::Global;
use std::collections::{BTreeMap, BTreeSet};

/// The names so far. A name without a number of its own has the number of names before it.
#[derive(Drop)]
pub(crate) struct Names {
    by_number: BTreeMap<u64, Name>,
    seen: BTreeSet<Vec<u8>>,
}

impl Names {
    /// No names.
    pub(crate) fn new(alloc: Global) -> Names
        ensures { HoldsNames result [] }
    {
        Names {
            by_number: BTreeMap::new(alloc),
            seen: BTreeSet::new(alloc),
        }
    }

    /// The name with this number, if there is one.
    pub(crate) fn get(&self, number: u64) -> Option<&Name>
        ensures { (names : List Given) → HoldsNames self.now names → option_copied result ≡ name_of names number }
    {
        self.by_number.get(&number)
    }

    /// Adds the name in the record, if it is a CELLNAME.
    pub(crate) fn take(&mut self, alloc: Global, taken: &Record) -> Result<(), Cause<NameRule>>
        ensures refused { IfErr result (λ e. Says e (λ rule.
            (names : List Given) → HoldsNames self.old names → NamingBreaches names taken.now rule)) }
        ensures kept { OnOk result ((names : List Given) → HoldsNames self.old names
            → HoldsNames self.new (names ++ name_in taken.now)) }
        ensures none { OnOk result ((names : List Given) → HoldsNames self.old names
            → (rule : Rule) → ¬ NamingBreaches names taken.now rule) }
    {
        match taken {
            Record::CellName(given) => self.add(alloc, given),
            _ => Ok(()),
        }
    }

    // Adds a name. Its number is tested before the name itself.
    fn add(&mut self, alloc: Global, given: &CellName) -> Result<(), Cause<NameRule>>
        ensures refused { IfErr result (λ e. Says e (λ rule.
            (names : List Given) → HoldsNames self.old names → NameBreaches names given.now rule)) }
        ensures kept { OnOk result
            ((names : List Given) → HoldsNames self.old names → HoldsNames self.new (names ++ given.now ∷ [])) }
        ensures none { OnOk result ((names : List Given) → HoldsNames self.old names
            → (rule : Rule) → ¬ NameBreaches names given.now rule) }
    {
        let number = given.number.unwrap_or(self.by_number.len() as u64);
        if self.by_number.contains_key(&number) {
            return Err(Cause::Breach(NameRule::NumberTwice));
        }
        let bytes = given.name.as_bytes();
        let is_new = self.seen.insert(Vec::from_slice(alloc, bytes)?)?;
        if !is_new {
            return Err(Cause::Breach(NameRule::NameTwice));
        }
        let name = Name::of(alloc, bytes)?;
        self.by_number.insert(number, name)?;
        Ok(())
    }
}
