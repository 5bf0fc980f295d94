// Four numbers that count records by their kind, and stay at the highest value once there: handed in and out by value, or lent and altered where they lie.
#![tactic(auto)]

ghost use Rattle.std.specs.Prelude.{◌≡◌};
ghost use Rattle.counters.specs.Counted.{one_more, fresh, counted_as};

// What became of a record: its chunk was stored, turned away or refused, or the record is cut short.
#[derive(Clone, Copy)]
pub enum Kind {
    Stored,
    TurnedAway,
    Refused,
    Cut,
}

#[derive(Clone, Copy)]
pub struct Counters {
    pub stored: u32,
    pub turned_away: u32,
    pub refused: u32,
    pub cut: u32,
}

// Nothing is counted yet.
pub fn new() -> Counters
    ensures { result ≡ fresh }
{
    Counters {
        stored: 0,
        turned_away: 0,
        refused: 0,
        cut: 0,
    }
}

// One more, up to the highest value.
fn one_more(n: u32) -> u32
    ensures { result ≡ one_more n }
{
    if n < u32::MAX { n + 1 } else { n }
}

// The counters with one record more of a kind.
pub fn counted(counters: Counters, kind: Kind) -> Counters
    ensures { result ≡ counted_as kind counters }
{
    let mut after = counters;
    match kind {
        Kind::Stored => after.stored = one_more(counters.stored),
        Kind::TurnedAway => after.turned_away = one_more(counters.turned_away),
        Kind::Refused => after.refused = one_more(counters.refused),
        Kind::Cut => after.cut = one_more(counters.cut),
    }
    after
}

// The same, of counters that are lent and altered where they lie.
pub fn count(counters: &mut Counters, kind: Kind)
    ensures { counters.new ≡ counted_as kind counters.old }
{
    *counters = counted(*counters, kind);
}
