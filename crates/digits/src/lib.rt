// Hexadecimal digits. The worth of every byte value comes from one table.
#![tactic(auto)]

mod worths;

ghost use Rattle.std.specs.Prelude.{◌≡◌, get_or};
ghost use Rattle.digits.specs.Digits.{pair_of, bytes_of, padded, digit_of};

pub use worths::worth;

// The byte of a high and a low digit that are worth so much; 0 where one of them is none: `pair_of` says so.
fn pair(high: u8, low: u8) -> u8
    ensures { result ≡ pair_of high low }
{
    if 15 < high || 15 < low {
        return 0;
    }
    high * 16 + low
}

// Byte i of the bytes that some characters make, two a byte; 0 past them, as the promise `get_or` says.
pub fn byte(characters: &[u8], i: usize) -> u8
    ensures { result ≡ get_or (bytes_of characters.now) i 0 }
{
    if characters.len() / 2 <= i {
        return 0;
    }
    let high = worth(characters[2 * i]);
    let low = worth(characters[2 * i + 1]);
    pair(high, low)
}

// The first 256 of these bytes; zeros after them where there are fewer.
pub fn bytes(characters: &[u8]) -> [u8; 256]
    ensures { result ≡ padded (bytes_of characters.now) }
{
    let mut list = [0u8; 256];
    let count = (characters.len() / 2).min(256);
    for i in 0..count {
        list[i] = byte(characters, i);
    }
    list
}

// The small digit that is worth n; 0, which is no digit, where n is over 15: `digit_of` says so.
pub fn digit(n: u8) -> u8
    ensures { result ≡ digit_of n }
{
    match n {
        0..=9 => n + 48,
        10..=15 => n + 87,
        _ => 0,
    }
}
