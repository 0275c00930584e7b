// Prices, sums and comparisons of each kind on a few measures.
use super::Hot;
use board::measures::Measure;
use cost::energies::Energy;
use cost::kinds::Kind;
use cost::pairs::Pair;
use cost::peaks::Peak;
use cost::sums::entry_limit;

// The measure of one job of 10 µs.
fn measure(draw: u64, energy: u64) -> Measure {
    Measure {
        busy: 10,
        draw,
        jobs: 1,
        load: 10,
        energy,
    }
}

fn sum<K: Kind>(a: &Measure, b: &Measure) -> Option<K> {
    let first = K::price(a)?;
    let second = K::price(b)?;
    K::zero().add(first)?.add(second)
}

// The first two numbers of the sum of two entries, with none past the last; none if a call declines.
fn numbers<K: Kind>(a: &Measure, b: &Measure) -> Option<(Option<u64>, Option<u64>)> {
    let cost = sum::<K>(a, b)?;
    Some((cost.number(0), cost.number(1)))
}

// Whether the first measure is no dearer than the second, and the other way round.
fn compared<K: Kind>(a: &Measure, b: &Measure) -> Option<(bool, bool)> {
    let first = K::price(a)?;
    let second = K::price(b)?;
    Some((first.no_dearer(&second), second.no_dearer(&first)))
}

#[test]
fn sums_have_their_numbers(rt: HostRuntime) {
    let cool = measure(4_000_000, 50);
    let warm = measure(12_000_000, 70);
    assert_eq!(rt; numbers::<Energy>(&cool, &warm), Some((Some(120), None)));
    assert_eq!(rt;
        numbers::<Peak>(&cool, &warm),
        Some((Some(12_000_000), None))
    );
    assert_eq!(rt; numbers::<Hot>(&cool, &warm), Some((Some(1), None)));
    assert_eq!(rt;
        numbers::<Pair<Energy, Peak>>(&cool, &warm),
        Some((Some(120), Some(12_000_000)))
    );
    assert_eq!(rt;
        numbers::<Pair<Energy, Hot>>(&warm, &warm),
        Some((Some(140), Some(2)))
    );
}

#[test]
fn pairs_compare_the_first_before_the_second(rt: HostRuntime) {
    let cool = measure(4_000_000, 70);
    let warm = measure(12_000_000, 70);
    let thrifty = measure(12_000_000, 60);
    assert_eq!(rt;
        compared::<Pair<Energy, Hot>>(&cool, &warm),
        Some((true, false))
    );
    assert_eq!(rt;
        compared::<Pair<Energy, Hot>>(&cool, &thrifty),
        Some((false, true))
    );
    assert_eq!(rt; compared::<Energy>(&cool, &warm), Some((true, true)));
    assert_eq!(rt; compared::<Peak>(&thrifty, &cool), Some((false, true)));
}

#[test]
fn what_does_not_fit_is_declined(rt: HostRuntime) {
    let vast = measure(4_000_000, u64::MAX);
    let next = measure(200_000_000, 1);
    assert_eq!(rt; numbers::<Energy>(&vast, &next), None);
    assert_eq!(rt;
        numbers::<Peak>(&vast, &next),
        Some((Some(200_000_000), None))
    );
    assert_eq!(rt; compared::<Pair<Energy, Hot>>(&vast, &next), None);
}

#[test]
fn each_kind_has_its_letter(rt: HostRuntime) {
    assert_eq!(rt; <Energy as Kind>::LETTER, b'e');
    assert_eq!(rt; <Peak as Kind>::LETTER, b'p');
    assert_eq!(rt; <Hot as Kind>::LETTER, b'h');
    assert_eq!(rt; <Pair<Energy, Hot> as Kind>::LETTER, b'b');
    assert_eq!(rt; entry_limit::<Hot>(), 48);
}
