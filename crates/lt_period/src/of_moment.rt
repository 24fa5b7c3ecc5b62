ghost use Rattle.std.specs.Prelude.{◌≡◌, ℕ};
ghost use Rattle.lt_rec.specs.Periods.{IsPeriod, InPeriod};
ghost use Rattle.lt_period.specs.Moments.{len_at, period_at};

use lt_rec::Period;

/// The period of a timestamp at a moment: four hours from the start of the moment's day on, a day from the start of its
/// week up to that, and a week before. Takes no memory.
pub fn period_of(ts: u64, now: u64) -> Period
    ensures exact { result ≡ period_at ts now }
    ensures lawful { IsPeriod result }
    ensures holds { InPeriod result ts }
    ensures same { (other : ℕ) → InPeriod result other → period_at other now ≡ result }
{
    let len = len_of(ts, now);
    Period::new(ts - ts % len, len)
}

fn len_of(ts: u64, now: u64) -> u64
    ensures { result ≡ len_at ts now }
{
    if ts >= now - now % Period::DAY {
        Period::FOUR_HOURS
    } else if ts >= now - now % Period::WEEK {
        Period::DAY
    } else {
        Period::WEEK
    }
}
