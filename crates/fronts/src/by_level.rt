// A value for each of the eight levels that a processor may have.
//
// An array would do, but one of values of a kind of cost that is lent is asked to fit into memory, which
// cannot be shown for every kind, and one that is handed on by copies is not covered. So `first_heads`
// goes by the numbers of the levels.
ghost use Rattle.std.specs.Prelude.{◌≡◌, ◌<◌, slice_index_or, slice_set};
ghost use Rattle.fronts.specs.ByLevel.{by_level, eight};

#[derive(Clone, Copy)]
pub(crate) struct ByLevel<X> {
    zero: X,
    one: X,
    two: X,
    three: X,
    four: X,
    five: X,
    six: X,
    seven: X,
}

impl<X: Copy> ByLevel<X> {
    // The same for each level.
    pub(crate) fn all(x: X) -> ByLevel<X>
        ensures { by_level result ≡ eight x }
    {
        ByLevel {
            zero: x,
            one: x,
            two: x,
            three: x,
            four: x,
            five: x,
            six: x,
            seven: x,
        }
    }

    // The value of a level.
    pub(crate) fn get(&self, level: usize) -> X
        requires { level < 8 }
        ensures { result ≡ slice_index_or (by_level self.now) level result }
    {
        match level {
            0 => self.zero,
            1 => self.one,
            2 => self.two,
            3 => self.three,
            4 => self.four,
            5 => self.five,
            6 => self.six,
            _ => self.seven,
        }
    }

    // Puts a value at a level.
    pub(crate) fn put(&mut self, level: usize, x: X)
        requires { level < 8 }
        ensures { by_level self.new ≡ slice_set (by_level self.old) level x }
    {
        match level {
            0 => self.zero = x,
            1 => self.one = x,
            2 => self.two = x,
            3 => self.three = x,
            4 => self.four = x,
            5 => self.five = x,
            6 => self.six = x,
            _ => self.seven = x,
        }
    }
}
