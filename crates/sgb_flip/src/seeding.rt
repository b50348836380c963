ghost use Rattle.std.specs.Prelude.{◌≡◌, ◌+◌, ◌%◌, ◌<◌, ◌^◌, length};
ghost use Rattle.sgb_flip.specs.Generator.{rotated, seed_number, seed_words};
ghost use Rattle.sgb_flip.specs.Sequence.{difference};

// The seed modulo 2^31.
pub(crate) fn number_of(seed: i64) -> u32
    ensures value { result ≡ seed_number seed }
    ensures small { result < 2 ^ 31 }
{
    seed.rem_euclid(0x8000_0000) as u32
}

// Fills 55 words as the number of a seed does, from a subtractive sequence and the number's bits.
pub(crate) fn fill(words: &mut [u32], number: u32)
    requires count { length words.old ≡ 55 }
    requires small { number < 2 ^ 31 }
    ensures filled { words.new ≡ seed_words number }
{
    let mut turned = number;
    let mut before = number;
    let mut term = 1u32;
    // Where the next term stands, counted from 1.
    let mut place = 21usize;
    words[54] = number;
    for _j in 1..55usize {
        words[place - 1] = term;
        place = moved_on(place);
        turned = rotated_once(turned);
        let next = difference_of(difference_of(before, term), turned);
        before = term;
        term = next;
    }
}

// 21 places on in a circle of 55.
#[inline(always)]
fn moved_on(place: usize) -> usize
    requires within { place < 55 }
    ensures value { result ≡ (place + 21) % 55 }
{
    if place < 34 { place + 21 } else { place - 34 }
}

// Turns 31 bits right by one place.
fn rotated_once(bits: u32) -> u32
    requires small { bits < 2 ^ 31 }
    ensures turned { result ≡ rotated bits }
    ensures small { result < 2 ^ 31 }
{
    bits / 2 + bits % 2 * 0x4000_0000
}

fn difference_of(a: u32, b: u32) -> u32
    requires small { a < 2 ^ 31 }
    requires taken { b < 2 ^ 31 }
    ensures value { result ≡ difference a b }
    ensures small { result < 2 ^ 31 }
{
    (a + 0x8000_0000 - b) % 0x8000_0000
}
