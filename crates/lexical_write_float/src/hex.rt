// Derived from `write_float_scientific` of lexical-write-float/src/hex.rs and binary.rs, changed: one function for equal and mixed pairs, which differ only in c, and it answers a plan.
ghost use Rattle.std.specs.Prelude.{◌≡◌, not, ◌&&◌, ◌≤◌, ◌<◌};
ghost use Rattle.lexical_write_float_spec.specs.Text.{point, least, trim, scientific};
ghost use Rattle.lexical_write_float.specs.Code.{IsPlan};
ghost use Rattle.lexical_format.specs.Format.{most_count};

use crate::plan::Plan;
use crate::shared::missing_digits;
use lexical_format::{NumberFormat, Options};

// Whether a digit alone has no ".0" behind it.
fn stands_alone(format: NumberFormat, options: Options) -> bool
    ensures { result ≡ (trim format options && not format.no_exponent_without_fraction) }
{
    options.trim_floats && !format.no_exponent_without_fraction
}

// First digit, point, the rest, zeros up to the least count. A digit alone has ".0" behind it, unless it is trimmed.
pub(crate) fn write_float_scientific(count: usize, format: NumberFormat, options: Options) -> Plan
    requires { (0 < count) × (least format options ≤ most_count) }
    ensures { IsPlan (point format options) count (scientific format options) result }
{
    let padding = missing_digits(options.min_significant_digits, count);
    if count > 1 {
        return Plan {
            leading: 1,
            filled: 0,
            point: true,
            gap: 0,
            padding,
        };
    }
    if stands_alone(format, options) {
        return Plan {
            leading: 1,
            filled: 0,
            point: false,
            gap: 0,
            padding: 0,
        };
    }
    Plan {
        leading: 1,
        filled: 0,
        point: true,
        gap: 0,
        padding: if padding == 0 { 1 } else { padding },
    }
}
