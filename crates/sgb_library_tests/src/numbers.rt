use sgb_flip::Flip;

#[test]
fn numbers_are_drawn_and_taken_back(rt: HostRuntime) {
    let mut flip = Flip::new(-314_159);
    let start = flip;
    assert!(rt; flip.next() == 119_318_998);
    for _ in 0..133u32 {
        flip.next();
    }
    let drawn = flip.uniform(1_431_655_765);
    assert!(rt; drawn.value == 748_103_812);
    flip.back_by(134 + drawn.draws as u64);
    assert!(rt; flip == start);
}
