// Property sets.
use draft::PropertySet;

#[test]
fn bits_at_the_ends_of_words(rt: HostRuntime) {
    let set = PropertySet::from_words([1, 1 << 63, 2, 1 << 63]);
    assert!(rt;
        [0, 127, 129, 255]
            .iter()
            .all(|&property| set.contains(property))
    );
    let outside = [1, 63, 64, 128, 130, 191, 192, 254];
    assert!(rt; !outside.iter().any(|&property| set.contains(property)));
}

#[test]
fn the_empty_set(rt: HostRuntime) {
    assert!(rt; !PropertySet::EMPTY.contains(0) && !PropertySet::EMPTY.contains(255));
}
