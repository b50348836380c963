// The third number of seed 0, and ranges at their limits.
use sgb_flip::Flip;
use sgb_graph::Refusal;
use sgb_plan::LengthRange;

// The length that the first draws of seed 0 give, and how many they are.
fn first_length(min: i64, max: i64) -> Option<(i64, u64)> {
    let mut flip = Flip::new(0);
    let drawn = LengthRange::new(min, max).ok()?.draw(&mut flip);
    Some((drawn.len, drawn.draws))
}

fn refusal(min: i64, max: i64) -> Option<Refusal> {
    LengthRange::new(min, max).err()
}

// 2029883356 is the first number.
#[test]
fn drawn(rt: HostRuntime) {
    assert!(rt; first_length(1, 6) == Some((5, 1)));
    assert!(rt; first_length(-3, -2) == Some((-3, 1)));
    assert!(rt; first_length(i64::MIN, i64::MIN + 0x7fff_ffff) == Some((i64::MIN + 2029883356, 1)));
    assert!(rt; first_length(5, 5) == Some((5, 0)));
}

#[test]
fn refused(rt: HostRuntime) {
    assert!(rt; refusal(5, 4) == Some(Refusal::TooLarge));
    assert!(rt; refusal(i64::MAX, i64::MIN) == Some(Refusal::TooLarge));
    assert!(rt; refusal(0, 2147483648) == Some(Refusal::LengthRange));
    assert!(rt; refusal(i64::MIN, i64::MAX) == Some(Refusal::LengthRange));
    assert!(rt; refusal(0, 2147483647).is_none());
}
