//! Masks of fields: a 32-bit number whose bit i stands for field i.

ghost use Rattle.std.specs.Prelude.{◌≡◌, ◌<◌};
ghost use Rattle.sets.specs.Sets.{joined, single};
ghost use Rattle.sets.specs.Word.{bit};

use sets::ValueSet;
use sets::codes::Codes;

/// Whether the mask holds the field, as a set of codes; it holds none from 32 on.
pub fn has_field(mask: u32, field: usize) -> bool
    ensures value { result ≡ bit mask field }
{
    u32::try_from(field).is_ok_and(|field| Codes(u64::from(mask)).contains(field))
}

// The mask with the field besides.
pub(crate) fn with_field(mask: u32, field: usize) -> u32
    requires { field < 32 }
    ensures value { bit result ≡ joined (bit mask) (single field) }
{
    mask | (1 << field)
}
