// The bits of a bitmap are set and counted.
use jf_path::Bitmap;

// Places 0, 5 and 15.
fn three() -> Bitmap {
    let mut bitmap = Bitmap::all();
    for place in 1..15 {
        bitmap.set(place, place == 5);
    }
    bitmap
}

// A place, how many bits are set before it, and how many in the four places from it on.
const COUNTED: &[(usize, usize, usize)] = &[(0, 0, 1), (1, 1, 0), (5, 1, 1), (6, 2, 0), (12, 2, 1)];

fn is_counted(place: usize, before: usize, after: usize) -> bool {
    place <= 12 && three().rank(place) == before && three().count(place, 4) == after
}

#[test]
fn bits_are_counted(rt: HostRuntime) {
    assert!(rt; three().has(15) && !three().has(14) && three() != Bitmap::none());
    for (place, before, after) in COUNTED {
        assert!(rt; is_counted(*place, *before, *after), "{place}");
    }
}
