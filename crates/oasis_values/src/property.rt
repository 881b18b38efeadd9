//! Values of properties, which are read but not kept.
ghost use Rattle.std.specs.Prelude.{◌≡◌, false};
ghost use Rattle.oasis_values.specs.Known.{among};
ghost use Rattle.oasis_values.specs.Properties.{value_types};

use crate::fault::ValueFault;
use crate::input::Input;
use crate::number::RealType;
use crate::text::Text;
use lvl_io::Read;

/// The types of values.
#[derive(Clone, Copy, Drop)]
pub enum ValueType {
    Real(RealType),
    Unsigned,
    Signed,
    String(Text),
    /// The number of a PROPSTRING record, which stands for its string.
    Reference,
}

// The type of a value by its number.
fn value_type(number: u64) -> Option<ValueType>
    ensures { result ≡ among 0 value_types number }
{
    match number {
        0 => Some(ValueType::Real(RealType::Whole)),
        1 => Some(ValueType::Real(RealType::NegWhole)),
        2 => Some(ValueType::Real(RealType::Reciprocal)),
        3 => Some(ValueType::Real(RealType::NegReciprocal)),
        4 => Some(ValueType::Real(RealType::Ratio)),
        5 => Some(ValueType::Real(RealType::NegRatio)),
        6 => Some(ValueType::Real(RealType::Four)),
        7 => Some(ValueType::Real(RealType::Eight)),
        8 => Some(ValueType::Unsigned),
        9 => Some(ValueType::Signed),
        10 => Some(ValueType::String(Text::A)),
        11 => Some(ValueType::String(Text::B)),
        12 => Some(ValueType::String(Text::N)),
        13 | 14 | 15 => Some(ValueType::Reference),
        _ => None,
    }
}

impl<R: Read> Input<R> {
    ghost use Rattle.oasis_values.specs.Input.{has_failed};
    ghost use Rattle.oasis_values.specs.Reads.{Reads, Refutes};
    ghost use Rattle.oasis_values.specs.Faults.{as_breach};
    ghost use Rattle.oasis_values.specs.Properties.{IsValueOf, IsValue};

    /// Reads a value of a property, its type from 0 to 15 and then a value of that type, and keeps nothing
    /// of it. It doesn't allocate. A type over 15 is reported as `RealType`.
    pub fn skip_value(&mut self) -> Result<(), ValueFault>
        ensures reads { Reads R.remaining R.read_errors R.lent IsValue self.old self.new (as_breach result) }
        ensures none { Refutes R.remaining IsValue self.old (as_breach result) }
    {
        let number = self.unsigned()?;
        let kind = self.known(value_type(number), ValueFault::RealType)?;
        self.skip_value_of(kind)
    }

    // Reads a value of that type, after the type was read.
    fn skip_value_of(&mut self, kind: ValueType) -> Result<(), ValueFault>
        requires { has_failed self.old ≡ false }
        ensures reads { Reads R.remaining R.read_errors R.lent (IsValueOf kind) self.old self.new (as_breach result) }
    {
        match kind {
            ValueType::Real(kind) => {
                let _real = self.real_of(kind)?;
                Ok(())
            }
            ValueType::Unsigned => {
                let _number = self.unsigned()?;
                Ok(())
            }
            ValueType::Signed => {
                let _number = self.signed()?;
                Ok(())
            }
            ValueType::String(kind) => self.skip_string(kind),
            ValueType::Reference => {
                let _number = self.unsigned()?;
                Ok(())
            }
        }
    }
}
