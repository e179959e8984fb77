// A pair is a count and its unit.
ghost use Rattle.std.specs.Prelude.{◌≡◌};
ghost use Rattle.relative.specs.Pairs.{is_known};

// The most pairs that a text may have; with more it is refused by 5.
pub const MAX_PAIRS: usize = 256;

// One of a unit is this many seconds off the time, or this many months off the month count. An
// unknown unit counts as seconds if the text has the mark `ago`, and otherwise the text is refused.
// It is no Option: a pair of an unknown unit is subtracted too, as one of a second.
#[derive(Clone, Copy)]
pub enum Unit {
    Seconds(u64),
    Months(u64),
    Unknown,
}

#[derive(Clone, Copy)]
pub struct Pair {
    pub count: u64,
    pub unit: Unit,
}

// Whether a unit is one of the seven that have names.
pub fn is_known(unit: Unit) -> bool
    ensures { result ≡ is_known unit }
{
    !matches!(unit, Unit::Unknown)
}
