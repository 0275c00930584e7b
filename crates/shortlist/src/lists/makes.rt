// Making a short list, reading it and adding to it.
ghost use Rattle.std.specs.Prelude.{◌≡◌, ◌+◌, ◌<◌, ◌++◌, ◌∷◌, [], length, take, drop, nat_le, nat_lt, cond};
ghost use Rattle.std.specs.Option.{option_map};
ghost use Rattle.shortlist.specs.Lists.{listed, all_places, joined, inserted, within};

use super::ShortList;

// Puts the item in front of the one at `at` among the first `count`, or behind them if they are fewer.
fn put_in<T: Copy>(places: &mut [T], count: usize, at: usize, item: T)
    requires { count < length places.old }
    ensures { take (count + 1) places.new ≡ take at (take count places.old) ++ item ∷ drop at (take count places.old) }
{
    let place = at.min(count);
    let end = count + 1;
    places[count] = item;
    places[place..end].rotate_right(1);
}

impl<T: Copy, const N: usize> ShortList<T, N> {
    // No items. `fill` stands in the places until they are taken.
    pub fn none(fill: T) -> ShortList<T, N>
        ensures { listed result ≡ [] }
    {
        ShortList {
            places: [fill; N],
            count: 0,
        }
    }

    // These items; none if they are more than N.
    pub fn of(items: &[T], fill: T) -> Option<ShortList<T, N>>
        ensures { option_map listed result ≡ within N items.now }
    {
        let mut list = ShortList::none(fill);
        if list.extend(items) { Some(list) } else { None }
    }

    // The items, from the first on.
    pub fn items(&self) -> &[T]
        ensures { result.now ≡ listed self.now }
    {
        &self.places[..self.count]
    }

    // What stands in all N places: the items, and behind them what is no item.
    pub fn places(&self) -> &[T]
        ensures places { result.now ≡ all_places self.now }
        ensures count { length result.now ≡ N }
    {
        &self.places[..]
    }

    // One item more, behind the others. False, and nothing changed, if there are N already.
    pub fn push(&mut self, item: T) -> bool
        ensures answer { result ≡ nat_le (length (listed self.old) + 1) N }
        ensures items { listed self.new ≡ joined N (listed self.old) (item ∷ []) }
    {
        if self.count >= N {
            return false;
        }
        self.places[self.count] = item;
        self.count += 1;
        true
    }

    // One item more at the place `at`, or behind the others if they are fewer. False, and nothing
    // changed, if there are N already.
    pub fn insert(&mut self, at: usize, item: T) -> bool
        ensures answer { result ≡ nat_le (length (listed self.old) + 1) N }
        ensures items { listed self.new ≡ inserted N (listed self.old) at item }
    {
        if self.count >= N {
            return false;
        }
        put_in(&mut self.places, self.count, at, item);
        self.count += 1;
        true
    }

    // More items, behind the others. False, and nothing changed, if all would be more than N.
    pub fn extend(&mut self, items: &[T]) -> bool
        ensures answer { result ≡ nat_le (length (listed self.old) + length items.now) N }
        ensures items { listed self.new ≡ joined N (listed self.old) items.now }
    {
        if items.len() > N - self.count {
            return false;
        }
        let end = self.count + items.len();
        let places = &mut self.places[..];
        places[self.count..end].copy_from_slice(items);
        self.count = end;
        true
    }
}
