// Periods and their least common multiple.
ghost use Rattle.std.specs.Prelude.{◌≡◌, ◌≤◌, []};
ghost use Rattle.std.specs.Option.{option_map};
ghost use Rattle.board.specs.Periods.{period_fits, lcm, hyperperiod, GreatestDivisor, LeastMultiple, OfPeriods, hyperperiod_with};

// The least common multiple of the periods of all tasks that stand, in µs.
#[derive(Clone, Copy)]
pub struct Hyperperiod {
    micros: u64,
    ghost positive: { 1 ≤ micros },
    ghost short: { micros ≤ 60000000 },
    ghost made: { ∥ OfPeriods micros ∥₁ },
}

// A period is 100 to 10,000,000 µs.
pub(crate) fn period_fits(period: u64) -> bool
    ensures { result ≡ period_fits period }
{
    (100..=10_000_000).contains(&period)
}

// The greatest number that divides both, by Euclid's division.
fn common_divisor(a: u64, b: u64) -> u64
    ensures { GreatestDivisor a b result }
{
    let mut larger = a;
    let mut smaller = b;
    while smaller != 0 {
        let rest = larger % smaller;
        larger = smaller;
        smaller = rest;
    }
    larger
}

// The least number that both divide.
fn common_multiple(a: u64, b: u64) -> u64
    requires { (1 ≤ a) × ((a ≤ 60000000) × ((1 ≤ b) × (b ≤ 10000000))) }
    ensures value { result ≡ lcm a b }
    ensures least { LeastMultiple a b result }
{
    a / common_divisor(a, b) * b
}

// The least common multiple of no numbers.
fn multiple_of_none() -> u64
    ensures { result ≡ hyperperiod [] }
{
    1
}

impl Hyperperiod {
    // Of no periods at all.
    pub fn of_none() -> Hyperperiod
        ensures { result.micros ≡ hyperperiod [] }
    {
        Hyperperiod {
            micros: multiple_of_none(),
        }
    }

    // With one period more; none if the period is out of range or the hyperperiod too long.
    pub fn with(&self, period: u64) -> Option<Hyperperiod>
        ensures { option_map (λ h. h.micros) result ≡ hyperperiod_with self.now.micros period }
    {
        if !period_fits(period) {
            return None;
        }
        let micros = common_multiple(self.micros, period);
        if micros > 60_000_000 {
            return None;
        }
        Some(Hyperperiod { micros })
    }

    pub fn micros(&self) -> u64
        ensures { result ≡ self.now.micros }
    {
        self.micros
    }
}
