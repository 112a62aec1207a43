//! A line's bytes from its hexadecimal digits.

ghost use Rattle.std.specs.Prelude.{◌≡◌, ◌<◌, ◌≤◌, ◌*◌, None, Some, Ok, length, take, unwrap_or, IfSome, IsErr, MatchOption};
ghost use Rattle.std.specs.Bool.{MatchBool};
ghost use Rattle.hex.specs.Hex.{decode_pairs, hex_digit_value};
ghost use Rattle.ei_spec.specs.declared.limits.TheConstants.{MOST_PIECE_BYTES};
ghost use Rattle.reis_lines.specs.Text.{line_bytes};

use crate::held::LONGEST_LINE;

/// What stands for the value of a byte that is no digit.
const NO_DIGIT: u8 = 255;

/// The value of a hexadecimal digit of either case. There are no ranges to match, so that many digits go at once.
fn digit_value(digit: u8) -> u8
    ensures { result ≡ unwrap_or (hex_digit_value digit) NO_DIGIT }
{
    let number = digit.wrapping_sub(b'0');
    let lower = digit.wrapping_sub(b'a');
    let upper = digit.wrapping_sub(b'A');
    if number < 10 {
        number
    } else if lower < 6 {
        lower + 10
    } else if upper < 6 {
        upper + 10
    } else {
        NO_DIGIT
    }
}

/// Writes the bytes that pairs of digits spell, and tells whether all were digits. No byte ends it early, so that many go at once.
fn decode_digits(digits: &[u8], bytes: &mut [u8]) -> bool
    requires { length digits.now ≡ 2 * length bytes.old }
    ensures { MatchBool result (decode_pairs 0 digits.now ≡ Ok bytes.new) (IsErr (decode_pairs 0 digits.now)) }
{
    let mut greatest = 0u8;
    'bytes: for i in 0..bytes.len() {
        let high = digit_value(digits[2 * i]);
        let low = digit_value(digits[2 * i + 1]);
        bytes[i] = high.wrapping_mul(16).wrapping_add(low);
        greatest = greatest.max(high).max(low);
    }
    greatest < NO_DIGIT
}

/// The bytes that a line spells, at the front of the slice.
pub(crate) fn decode_line(line: &[u8], bytes: &mut [u8]) -> Option<usize>
    requires some { 0 < length line.now }
    requires room { MOST_PIECE_BYTES ≤ length bytes.old }
    ensures spells { MatchOption result (line_bytes line.now ≡ None)
        (λ n. line_bytes line.now ≡ Some (take n bytes.new)) }
    ensures size { IfSome result (λ n. (0 < n) × (n ≤ MOST_PIECE_BYTES)) }
{
    if line.len() > LONGEST_LINE || line.len() % 2 != 0 {
        return None;
    }
    let count = line.len() / 2;
    if decode_digits(line, &mut bytes[..count]) {
        Some(count)
    } else {
        None
    }
}
