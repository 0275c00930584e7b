// Which capacities and times a book takes.
ghost use Rattle.std.specs.Prelude.{◌≡◌};
ghost use Rattle.board.specs.Processors.{between};

// A capacity of 1 to 1,000 thousandths.
pub(crate) fn capacity_fits(thousandths: u64) -> bool
    ensures { result ≡ between 1 1000 thousandths }
{
    (1..=1000).contains(&thousandths)
}

// A time that is not before the clock, up to 10^12 µs.
pub(crate) fn clock_fits(clock: u64, time: u64) -> bool
    ensures { result ≡ between clock 1000000000000 time }
{
    (clock..=1_000_000_000_000).contains(&time)
}
