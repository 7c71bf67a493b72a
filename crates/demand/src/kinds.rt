// Kinds: their numbers, and the two questions that charge, interrupts and jitter go by.
ghost use Rattle.std.specs.Prelude.{◌≡◌, cond, ◌≤◌};
ghost use Rattle.demand.specs.Kinds.{kind_number, kind_of, departs, arrives};

use crate::Kind;

// 0 whole, 1 first, 2 last.
impl From<Kind> for u64 {
    ghost from_gives = { λ kind number. number ≡ kind_number kind };

    fn from(kind: Kind) -> u64 {
        match kind {
            Kind::Whole => 0,
            Kind::First => 1,
            Kind::Last => 2,
        }
    }
}

/// The kind of a number. A greater one than 2 is no kind: it is taken for a last piece, and whoever reads a record turns it away before.
pub fn kind_of(number: u64) -> Kind
    ensures exact { result ≡ kind_of number }
{
    match number {
        0 => Kind::Whole,
        1 => Kind::First,
        _ => Kind::Last,
    }
}

// n for a piece whose task goes on elsewhere, else nothing.
pub fn if_departs(kind: Kind, n: u64) -> u64
    ensures { (result ≡ cond (departs kind) n 0) × (result ≤ n) }
{
    match kind {
        Kind::First => n,
        Kind::Whole | Kind::Last => 0,
    }
}

// n for a piece that came from elsewhere, else the other number.
pub fn if_arrives(kind: Kind, n: u64, other: u64) -> u64
    ensures { result ≡ cond (arrives kind) n other }
{
    match kind {
        Kind::Last => n,
        Kind::Whole | Kind::First => other,
    }
}
