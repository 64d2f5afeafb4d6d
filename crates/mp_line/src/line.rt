//! The bytes of a line, put together in place. Each call tells where the line then ends.

ghost use Rattle.std.specs.Prelude.{◌≡◌, ◌+◌, ◌<◌, ◌≤◌, ◌++◌, ◌∷◌, [], codes, length, take};
ghost use Rattle.std.specs.Fmt.{decimal};
ghost use Rattle.mp_line.specs.Words.{one_number, two_numbers, three_numbers, pair_word, list_word};
ghost use Rattle.mp_words.specs.Status.{hex_digit, status_word};

use itoa::Buffer;

/// Places a byte behind the first `at`, and tells where it ends.
#[inline(always)]
pub fn place_byte(line: &mut [u8; 128], at: usize, byte: u8) -> usize
    requires { at < 128 }
    ensures bytes { take result line.new ≡ take at line.old ++ byte ∷ [] }
    ensures end { result ≡ at + 1 }
{
    line[at] = byte;
    at + 1
}

/// Places a word.
#[inline(always)]
pub fn place_word(line: &mut [u8; 128], at: usize, word: &[u8]) -> usize
    requires { at + length word.now ≤ 128 }
    ensures bytes { take result line.new ≡ take at line.old ++ word.now }
    ensures end { result ≡ at + length word.now }
{
    let end = at + word.len();
    line[at..end].copy_from_slice(word);
    end
}

/// Places a decimal digit.
#[tactic(auto, using(std::proofs::lemmas::Fmt::decimal_digit))]
#[inline(always)]
fn place_digit(line: &mut [u8; 128], at: usize, n: u32) -> usize
    requires { (n < 10) × (at < 128) }
    ensures bytes { take result line.new ≡ take at line.old ++ decimal n }
    ensures end { result ≡ at + 1 }
{
    place_byte(line, at, b'0' + n as u8)
}

/// Places a number of two digits at most.
#[inline(always)]
fn place_two_digits(line: &mut [u8; 128], at: usize, n: u32) -> usize
    requires { (n < 100) × (at + 2 ≤ 128) }
    ensures bytes { take result line.new ≡ take at line.old ++ decimal n }
    ensures end { (at ≤ result) × (result ≤ at + 2) }
{
    if n < 10 {
        return place_digit(line, at, n);
    }
    let at = place_digit(line, at, n / 10);
    place_byte(line, at, b'0' + (n % 10) as u8)
}

/// Places a number of three digits at most.
#[inline(always)]
fn place_three_digits(line: &mut [u8; 128], at: usize, n: u32) -> usize
    requires { (n < 1000) × (at + 3 ≤ 128) }
    ensures bytes { take result line.new ≡ take at line.old ++ decimal n }
    ensures end { (at ≤ result) × (result ≤ at + 3) }
{
    if n < 100 {
        return place_two_digits(line, at, n);
    }
    let at = place_two_digits(line, at, n / 10);
    place_byte(line, at, b'0' + (n % 10) as u8)
}

/// Places a number of four digits at most.
#[inline(always)]
fn place_four_digits(line: &mut [u8; 128], at: usize, n: u32) -> usize
    requires { (n < 10000) × (at + 4 ≤ 128) }
    ensures bytes { take result line.new ≡ take at line.old ++ decimal n }
    ensures end { (at ≤ result) × (result ≤ at + 4) }
{
    if n < 1000 {
        return place_three_digits(line, at, n);
    }
    let at = place_three_digits(line, at, n / 10);
    place_byte(line, at, b'0' + (n % 10) as u8)
}

/// Places a number of five digits at most, as most have.
#[inline(always)]
fn place_five_digits(line: &mut [u8; 128], at: usize, n: u32) -> usize
    requires { (n < 100000) × (at + 5 ≤ 128) }
    ensures bytes { take result line.new ≡ take at line.old ++ decimal n }
    ensures end { (at ≤ result) × (result ≤ at + 5) }
{
    if n < 10_000 {
        return place_four_digits(line, at, n);
    }
    let at = place_four_digits(line, at, n / 10);
    place_byte(line, at, b'0' + (n % 10) as u8)
}

/// Places a number in decimal. One of up to five digits, as most have, wants no buffer.
pub fn place_number(line: &mut [u8; 128], at: usize, n: u32) -> usize
    requires { at + 10 ≤ 128 }
    ensures bytes { take result line.new ≡ take at line.old ++ decimal n }
    ensures end { (at ≤ result) × (result ≤ at + 10) }
{
    if n < 10 {
        return place_digit(line, at, n);
    }
    if n < 100_000 {
        return place_five_digits(line, at, n);
    }
    place_long(line, at, n)
}

/// Places a number in decimal.
#[inline(never)]
fn place_long(line: &mut [u8; 128], at: usize, n: u32) -> usize
    requires { at + 10 ≤ 128 }
    ensures bytes { take result line.new ≡ take at line.old ++ decimal n }
    ensures end { (at ≤ result) × (result ≤ at + 10) }
{
    let mut buffer = Buffer::new();
    place_word(line, at, buffer.format(n).as_bytes())
}

/// Places a number of up to 64 bits in decimal.
pub fn place_wide(line: &mut [u8; 128], at: usize, n: u64) -> usize
    requires { at + 20 ≤ 128 }
    ensures bytes { take result line.new ≡ take at line.old ++ decimal n }
    ensures end { (at ≤ result) × (result ≤ at + 20) }
{
    if n < 100_000 {
        return place_number(line, at, n as u32);
    }
    place_long_wide(line, at, n)
}

/// Places a number of up to 64 bits in decimal.
#[inline(never)]
fn place_long_wide(line: &mut [u8; 128], at: usize, n: u64) -> usize
    requires { at + 20 ≤ 128 }
    ensures bytes { take result line.new ≡ take at line.old ++ decimal n }
    ensures end { (at ≤ result) × (result ≤ at + 20) }
{
    let mut buffer = Buffer::new();
    place_word(line, at, buffer.format(n).as_bytes())
}

/// Places two numbers, each with a blank behind it.
pub fn place_numbers(line: &mut [u8; 128], at: usize, a: u32, b: u32) -> usize
    requires { at + 22 ≤ 128 }
    ensures bytes { take result line.new ≡ take at line.old ++ decimal a ++ codes " " ++ decimal b ++ codes " " }
    ensures end { (at ≤ result) × (result ≤ at + 22) }
{
    let at = place_number(line, at, a);
    let at = place_byte(line, at, b' ');
    let at = place_number(line, at, b);
    place_byte(line, at, b' ')
}

/// Places a word and a number.
pub fn place_one(line: &mut [u8; 128], at: usize, word: &[u8], a: u32) -> usize
    requires { at + length word.now + 11 ≤ 128 }
    ensures bytes { take result line.new ≡ take at line.old ++ one_number word.now a }
    ensures end { (at ≤ result) × (result ≤ at + length word.now + 11) }
{
    let at = place_word(line, at, word);
    let at = place_byte(line, at, b' ');
    place_number(line, at, a)
}

/// Places a word and two numbers.
pub fn place_two(line: &mut [u8; 128], at: usize, word: &[u8], a: u32, b: u32) -> usize
    requires { at + length word.now + 22 ≤ 128 }
    ensures bytes { take result line.new ≡ take at line.old ++ two_numbers word.now a b }
    ensures end { (at ≤ result) × (result ≤ at + length word.now + 22) }
{
    let at = place_one(line, at, word, a);
    let at = place_byte(line, at, b' ');
    place_number(line, at, b)
}

/// Places a word and three numbers.
pub fn place_three(line: &mut [u8; 128], at: usize, word: &[u8], a: u32, b: u32, c: u32) -> usize
    requires { at + length word.now + 33 ≤ 128 }
    ensures bytes { take result line.new ≡ take at line.old ++ three_numbers word.now a b c }
    ensures end { (at ≤ result) × (result ≤ at + length word.now + 33) }
{
    let at = place_two(line, at, word, a, b);
    let at = place_byte(line, at, b' ');
    place_number(line, at, c)
}

/// Places two numbers with a colon between them.
pub fn place_pair(line: &mut [u8; 128], at: usize, a: u32, b: u32) -> usize
    requires { at + 21 ≤ 128 }
    ensures bytes { take result line.new ≡ take at line.old ++ pair_word a b }
    ensures end { (at ≤ result) × (result ≤ at + 21) }
{
    let at = place_number(line, at, a);
    let at = place_byte(line, at, b':');
    place_number(line, at, b)
}

/// Places a status: its four hexadecimal digits in upper case, the highest first.
pub fn place_status(line: &mut [u8; 128], at: usize, status: u16) -> usize
    requires { at + 4 ≤ 128 }
    ensures bytes { take result line.new ≡ take at line.old ++ status_word status }
    ensures end { result ≡ at + 4 }
{
    let word = [
        hex_digit(status / 4096 % 16),
        hex_digit(status / 256 % 16),
        hex_digit(status / 16 % 16),
        hex_digit(status % 16),
    ];
    place_word(line, at, &word)
}

/// A hexadecimal digit in upper case.
fn hex_digit(n: u16) -> u8
    requires { n < 16 }
    ensures { result ≡ hex_digit n }
{
    if n <= 9 {
        b'0' + n as u8
    } else {
        b'A' + (n as u8 - 10)
    }
}

/// Places statuses joined by commas, or a dash.
pub fn place_statuses(line: &mut [u8; 128], at: usize, statuses: &[u16]) -> usize
    requires { (length statuses.now ≤ 6) × (at + 30 ≤ 128) }
    ensures bytes { take result line.new ≡ take at line.old ++ list_word status_word statuses.now }
    ensures end { (at ≤ result) × (result ≤ at + 30) }
{
    let Some((first, rest)) = statuses.split_first() else {
        return place_byte(line, at, b'-');
    };
    let mut at = place_status(line, at, *first);
    for status in rest {
        at = place_byte(line, at, b',');
        at = place_status(line, at, *status);
    }
    at
}
