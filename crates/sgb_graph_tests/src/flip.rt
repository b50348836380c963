// Knuth's published numbers, the states at the ends of a batch, and one call of each public function. The small
// functions promise nothing, so that the proof of a test stays short.
use sgb_flip::{Drawn, Flip, draws_law, seeding_law, sequence_law, uniform_law};

// Draws so many numbers.
fn draw(flip: &mut Flip, count: u32) {
    for _ in 0..count {
        flip.next();
    }
}

fn drawn(flip: &mut Flip) -> u32 {
    flip.next()
}

// Takes so many draws back, one by one.
fn back(flip: &mut Flip, count: u32) {
    for _ in 0..count {
        back_once(flip);
    }
}

fn back_once(flip: &mut Flip) {
    flip.back();
}

fn back_by(flip: &mut Flip, count: u64) {
    flip.back_by(count);
}

fn unread(flip: &Flip) -> u32 {
    flip.unread()
}

fn have_same_words(flip: &Flip, other: &Flip) -> bool {
    flip.words() == other.words()
}

// The word that a batch begins with.
fn last_word(flip: &Flip) -> u32 {
    flip.words()[54]
}

fn is_generator(words: [u32; 55], unread: u32) -> bool {
    Flip::from_words(words, unread).is_some()
}

// The numbers that the program of the book prints to show that it was carried over well.
#[test]
fn published_numbers(rt: HostRuntime) {
    let mut flip = Flip::new(-314159);
    assert!(rt; drawn(&mut flip) == 119318998);
    draw(&mut flip, 133);
    assert!(rt; flip.uniform(1431655765).value == 748103812);
}

#[test]
fn first_numbers_of_seed_0(rt: HostRuntime) {
    let mut flip = Flip::new(0);
    assert!(rt; unread(&flip) == 54);
    for number in [2029883356, 2073281797, 759676350, 50666240] {
        assert!(rt; drawn(&mut flip) == number);
    }
    assert!(rt; unread(&flip) == 50);
}

// A seed counts modulo 2^31.
#[test]
fn equal_seeds(rt: HostRuntime) {
    for (seed, same) in [
        (2147483648, 0),
        (-1, 2147483647),
        (i64::MIN, 0),
        (i64::MAX, 2147483647),
    ] {
        assert!(rt; Flip::new(seed) == Flip::new(same));
    }
    assert!(rt; Flip::new(0) != Flip::new(1));
}

#[test]
fn sixty_draws_and_back(rt: HostRuntime) {
    let first = Flip::new(0);
    let mut flip = first;
    assert!(rt; drawn(&mut flip) == 2029883356);
    draw(&mut flip, 59);
    assert!(rt; unread(&flip) == 49);
    let mut by_one = flip;
    back_by(&mut flip, 60);
    back(&mut by_one, 60);
    assert!(rt; have_same_words(&flip, &first));
    assert!(rt; unread(&flip) == 54);
    assert!(rt; by_one == first);
    assert!(rt; drawn(&mut flip) == 2029883356);
}

// The draw that turns the array, the 55th of a seeded generator.
#[test]
fn draws_up_to_the_next_batch(rt: HostRuntime) {
    let first = Flip::new(0);
    let mut flip = first;
    draw(&mut flip, 54);
    assert!(rt; unread(&flip) == 0);
    assert!(rt; have_same_words(&flip, &first));
    draw(&mut flip, 1);
    assert!(rt; unread(&flip) == 54);
    assert!(rt; !have_same_words(&flip, &first));
    back_by(&mut flip, 55);
    assert!(rt; flip == first);
}

// The draw before the first of a seeded generator.
#[test]
fn a_draw_before_the_batch(rt: HostRuntime) {
    let first = Flip::new(0);
    let mut flip = first;
    back(&mut flip, 1);
    assert!(rt; unread(&flip) == 0);
    assert!(rt; drawn(&mut flip) == last_word(&first));
    assert!(rt; flip == first);
}

// Backward is defined before the seeding too, as far as anybody likes.
#[test]
fn before_the_seeding(rt: HostRuntime) {
    let first = Flip::new(7);
    let mut flip = first;
    back_by(&mut flip, 1_000_000);
    draw(&mut flip, 1_000_000);
    assert!(rt; flip == first);
    back_by(&mut flip, 0);
    assert!(rt; flip == first);
}

#[test]
fn words_that_are_no_generator(rt: HostRuntime) {
    assert!(rt; !is_generator([0; 55], 55));
    assert!(rt; !is_generator([0; 55], 4294967295));
    let mut words = [0; 55];
    words[54] = 2147483648;
    assert!(rt; !is_generator(words, 0));
    words[54] = 2147483647;
    words[0] = 2147483648;
    assert!(rt; !is_generator(words, 54));
}

#[test]
fn words_of_a_generator(rt: HostRuntime) {
    let mut first = Flip::new(12345);
    draw(&mut first, 1);
    assert!(rt; Flip::from_words(first.words(), first.unread()) == Some(first));
    let zeros = Flip::from_words([0; 55], 0).expect(&rt, "zeros are below 2^31");
    assert!(rt; zeros.words() == [0; 55]);
    assert!(rt; unread(&zeros) == 0);
}

// Fifty-four numbers at or above the limit come first here.
#[test]
fn uniform_after_a_batch(rt: HostRuntime) {
    let mut flip = Flip::from_words([2147483647; 55], 54).expect(&rt, "the words are below 2^31");
    let drawn = flip.uniform(1073741825);
    assert!(rt;
        drawn
            == Drawn {
                value: 0,
                draws: 55
            }
    );
    assert!(rt; unread(&flip) == 54);
}

#[test]
fn uniform_at_the_ends(rt: HostRuntime) {
    let mut flip = Flip::new(0);
    let all = flip.uniform(2147483648);
    assert!(rt;
        all == Drawn {
            value: 2029883356,
            draws: 1
        }
    );
    let none = flip.uniform(1);
    assert!(rt; none == Drawn { value: 0, draws: 1 });
    assert!(rt; unread(&flip) == 52);
}

#[test]
fn laws() {
    sequence_law();
    seeding_law();
    draws_law();
    uniform_law();
}
