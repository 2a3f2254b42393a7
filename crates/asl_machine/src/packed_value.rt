//! Values as registers and cells keep them, each in one word.
ghost use Rattle.std.specs.Prelude.{◌≡◌};
ghost use Rattle.asl_machine.specs.StepFunction.{same_value};
ghost use Rattle.asl_machine.specs.PackedValue.{integer_of};

use asl_code::Value;
use std::marker::Model;

/// How many words have one upper half.
const HALF: u64 = 1 << 32;
/// The upper half of the word of null.
const NULL: u64 = 1;
/// The upper half of the word of an address.
const ADDRESS: u64 = 2;

/// A value in a word of 64 bits. The upper half says of which kind the value is, and the lower half has the rest: 0 an
/// integer, and its 32 bits; 1 null, and 0; 2 an address, and 256 times its object plus its offset. Contracts see the value.
#[derive(Clone, Copy, Drop)]
pub struct PackedValue {
    bits: u64,
}

impl Model for PackedValue {
    ghost use Rattle.std.specs.Prelude.{◌≡◌};
    ghost use Rattle.std.proofs.Common.{refl};
    ghost use Rattle.asl_code.specs.declared.value.Value.{Value as Kept};
    ghost use Rattle.asl_machine.specs.PackedValue.{bits_of, value_of};

    ghost Value = { Kept };

    ghost view = { λ w. value_of w.bits };

    ghost invariant = { λ w. bits_of (value_of w.bits) ≡ w.bits };

    ghost inverse = { λ v. record { bits = bits_of v } };

    ghost inverse_ok = { λ a h. Prim.rw h refl };
}

impl PackedValue {
    /// The word of the value.
    #[inline(always)]
    pub fn of(value: Value) -> PackedValue
        ensures { result ≡ value }
    {
        let bits = match value {
            Value::Int(number) => u64::from(number.cast_unsigned()),
            Value::Null => NULL * HALF,
            Value::Addr(object, offset) => {
                ADDRESS * HALF + u64::from(object) * 256 + u64::from(offset)
            }
        };
        PackedValue { bits }
    }

    /// The value.
    #[inline(always)]
    pub fn value(self) -> Value
        ensures { result ≡ self }
    {
        match self.bits / HALF {
            0 => Value::Int(((self.bits % HALF) as u32).cast_signed()),
            NULL => Value::Null,
            _ => Value::Addr((self.bits / 256 % 65_536) as u16, (self.bits % 256) as u8),
        }
    }

    /// The integer, if the value is one.
    #[inline(always)]
    pub fn integer(self) -> Option<i32>
        ensures { result ≡ integer_of self }
    {
        if self.bits < HALF {
            Some((self.bits as u32).cast_signed())
        } else {
            None
        }
    }

    /// Whether both are the same value.
    #[inline(always)]
    pub fn is_same(self, other: PackedValue) -> bool
        ensures { result ≡ same_value self other }
    {
        self.bits == other.bits
    }
}
