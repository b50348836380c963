//! The check number of a saved text.
ghost use Rattle.std.specs.Prelude.{◌≡◌, ◌<◌, ◌≤◌, ◌+◌, ◌-◌, ◌*◌, ◌^◌, ◌%◌, ◌++◌, ◌∷◌, ◌==◌, not, length};
ghost use Rattle.std.specs.List.{prefix_len};
ghost use Rattle.sgb_grammar.specs.Check.{code_of, covered, lines_of, weighed, check_of};

use memchr::memmem;

/// The check number is counted modulo this prime.
const PRIME: u64 = (1 << 30) - 83;

/// So many bytes are weighed before the sum is reduced.
const BLOCK: usize = 32;

/// The code of each byte.
static CODES: [u8; 256] = [
    95, 95, 95, 95, 95, 95, 95, 95, 95, 95, 95, 95, 95, 95, 95, 95, //
    95, 95, 95, 95, 95, 95, 95, 95, 95, 95, 95, 95, 95, 95, 95, 95, //
    94, 72, 93, 74, 75, 73, 65, 92, 85, 86, 78, 76, 67, 77, 69, 79, //
    0, 1, 2, 3, 4, 5, 6, 7, 8, 9, 70, 68, 82, 83, 84, 71, //
    66, 10, 11, 12, 13, 14, 15, 16, 17, 18, 19, 20, 21, 22, 23, 24, //
    25, 26, 27, 28, 29, 30, 31, 32, 33, 34, 35, 87, 81, 88, 63, 62, //
    91, 36, 37, 38, 39, 40, 41, 42, 43, 44, 45, 46, 47, 48, 49, 50, //
    51, 52, 53, 54, 55, 56, 57, 58, 59, 60, 61, 89, 80, 90, 64, 95, //
    95, 95, 95, 95, 95, 95, 95, 95, 95, 95, 95, 95, 95, 95, 95, 95, //
    95, 95, 95, 95, 95, 95, 95, 95, 95, 95, 95, 95, 95, 95, 95, 95, //
    95, 95, 95, 95, 95, 95, 95, 95, 95, 95, 95, 95, 95, 95, 95, 95, //
    95, 95, 95, 95, 95, 95, 95, 95, 95, 95, 95, 95, 95, 95, 95, 95, //
    95, 95, 95, 95, 95, 95, 95, 95, 95, 95, 95, 95, 95, 95, 95, 95, //
    95, 95, 95, 95, 95, 95, 95, 95, 95, 95, 95, 95, 95, 95, 95, 95, //
    95, 95, 95, 95, 95, 95, 95, 95, 95, 95, 95, 95, 95, 95, 95, 95, //
    95, 95, 95, 95, 95, 95, 95, 95, 95, 95, 95, 95, 95, 95, 95, 95,
];

/// Returns the check number of what stands between the first line and the check line: the sum of each byte's code,
/// doubled for each byte behind it, modulo 2^30 - 83. Lines that begin with `*` do not count.
pub fn check_number(body: &[u8]) -> u64
    ensures value { result ≡ check_of body.now }
    ensures small { result < 2 ^ 30 - 83 }
{
    let mut sum = 0;
    let mut rest = body;
    'lines: while !rest.is_empty() {
        let (lines, behind) = split_counted(rest);
        sum = weigh(sum, lines);
        rest = behind;
    }
    sum
}

// Returns the sum, doubled for each byte of the line, plus the weight of the line.
fn weigh(sum: u64, line: &[u8]) -> u64
    requires { sum < 2 ^ 30 - 83 }
    ensures value { result ≡ (sum * 2 ^ length line.now + weighed line.now) % (2 ^ 30 - 83) }
    ensures small { result < 2 ^ 30 - 83 }
{
    let mut value = sum;
    let mut rest = line;
    'pieces: while let Some((block, behind)) = rest.split_first_chunk::<BLOCK>() {
        value = weigh_block(value, block) % PRIME;
        rest = behind;
    }
    weigh_block(value, rest) % PRIME
}

// Returns the sum, doubled for each byte of the block, plus the weight of the block: not reduced, since it fits in 64 bits.
// Always inlined, as what it calls: if the block is a whole one, the count of its bytes is then known.
#[inline(always)]
fn weigh_block(sum: u64, block: &[u8]) -> u64
    requires sum { sum < 2 ^ 30 - 83 }
    requires block { length block.now ≤ 32 }
    ensures { result ≡ sum * 2 ^ length block.now + weighed block.now }
{
    (sum << block.len()) + weigh_alone(block)
}

// Returns the weight of a block by itself, which a processor can add up before it knows the sum of those before it.
#[inline(always)]
fn weigh_alone(block: &[u8]) -> u64
    requires { length block.now ≤ 32 }
    ensures value { result ≡ weighed block.now }
    ensures small { result < 2 ^ 40 }
{
    let mut value = 0;
    'bytes: for byte in block {
        value = value * 2 + u64::from(code_of(*byte));
    }
    value
}

fn code_of(byte: u8) -> u8
    ensures { result ≡ code_of byte }
{
    CODES[byte as usize]
}

// Returns the lines up to the first that begins with a star, and that line with what follows it; or no bytes and what
// follows the first line, if that line begins with a star.
fn split_counted(bytes: &[u8]) -> (&[u8], &[u8])
    requires { 0 < length bytes.now }
    ensures lines { covered bytes.now ≡ result.0.now ++ covered result.1.now }
    ensures shorter { length result.1.now < length bytes.now }
{
    if bytes[0] == b'*' {
        let (_, behind) = split_line(bytes);
        return (&[], behind);
    }
    match memmem::find(bytes, b"\n*") {
        Some(end) => bytes.split_at(end + 1),
        None => (bytes, &[]),
    }
}

// Returns the first line with its newline, and what follows it.
fn split_line(bytes: &[u8]) -> (&[u8], &[u8])
    requires { 0 < length bytes.now }
    ensures lines { lines_of bytes.now ≡ result.0.now ∷ lines_of result.1.now }
    ensures shorter { length result.1.now < length bytes.now }
{
    let end = count_to_newline(bytes);
    if end < bytes.len() {
        bytes.split_at(end + 1)
    } else {
        (bytes, &[])
    }
}

fn count_to_newline(bytes: &[u8]) -> usize
    ensures count { result ≡ prefix_len (λ b. not (b == 10)) bytes.now }
    ensures within { result ≤ length bytes.now }
{
    bytes.iter().take_while(|b| **b != b'\n').count()
}
