// The part of a format that the Rust packs into its u128 parameter FORMAT: document 01, "Formats".
ghost use Rattle.std.specs.Prelude.{◌≡◌, ◌&&◌, ◌≤◌, eqb};
ghost use Rattle.lexical_format.specs.Format.{pairs, find_pair};

// A row of the table of pairs: a radix of b bits to a digit, and the base of the exponent, 2 to the power c.
#[derive(Clone, Copy)]
pub struct Pair {
    pub radix: u32,
    pub base: u32,
    pub b: u32,
    pub c: u32,
}

#[derive(Clone, Copy)]
pub struct NumberFormat {
    pub mantissa_radix: u32,
    pub exponent_base: u32,
    pub exponent_radix: u32,
    pub required_exponent_notation: bool,
    pub no_exponent_notation: bool,
    pub required_exponent_sign: bool,
    pub no_exponent_without_fraction: bool,
}

// The ten pairs: document 01, "One table lists the ten pairs with their two bit counts".
const PAIRS: [Pair; 10] = [
    Pair {
        radix: 2,
        base: 2,
        b: 1,
        c: 1,
    },
    Pair {
        radix: 4,
        base: 4,
        b: 2,
        c: 2,
    },
    Pair {
        radix: 8,
        base: 8,
        b: 3,
        c: 3,
    },
    Pair {
        radix: 16,
        base: 16,
        b: 4,
        c: 4,
    },
    Pair {
        radix: 32,
        base: 32,
        b: 5,
        c: 5,
    },
    Pair {
        radix: 4,
        base: 2,
        b: 2,
        c: 1,
    },
    Pair {
        radix: 8,
        base: 2,
        b: 3,
        c: 1,
    },
    Pair {
        radix: 16,
        base: 2,
        b: 4,
        c: 1,
    },
    Pair {
        radix: 32,
        base: 2,
        b: 5,
        c: 1,
    },
    Pair {
        radix: 16,
        base: 4,
        b: 4,
        c: 2,
    },
];

// Whether a row is the one of a radix and a base. That no row has more than five bits is asked too, since the compiler then has b and c at hand where it compares: it unrolls the search and keeps no table.
fn is_row(row: Pair, radix: u32, base: u32) -> bool
    requires { (row.b ≤ 5) × (row.c ≤ 5) }
    ensures { result ≡ (eqb row.radix radix && eqb row.base base) }
{
    row.radix == radix && row.base == base && row.b <= 5 && row.c <= 5
}

// The row of a radix and a base, by a search of the table.
pub(crate) fn find_pair(radix: u32, base: u32) -> Option<Pair>
    ensures { result ≡ find_pair radix base pairs }
{
    for row in PAIRS {
        let b = row.b;
        let c = row.c;
        if is_row(row, radix, base) {
            return Some(Pair { radix, base, b, c });
        }
    }
    None
}
