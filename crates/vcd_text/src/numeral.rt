//! Numbers in digits, written from the right to the left.
ghost use Rattle.std.specs.Prelude.{◌≡◌, ◌<◌, ◌≤◌, ◌+◌, ◌-◌, ◌^◌, ◌++◌, map, length, drop};
ghost use Rattle.std.specs.Int.Digits.{digits_of};
ghost use Rattle.vcd_text.specs.Words.{zero_digit};
ghost use Rattle.vcd_text.specs.Written.{numeral};

/// Writes a number without leading zeros before a place of a line, and returns where it begins.
/// A byte of the line stays free before it.
#[inline(always)]
pub(crate) fn numeral_before(line: &mut [u8], end: usize, base: u64, n: u64) -> usize
    requires low { 2 ≤ base }
    requires high { base ≤ 10 }
    requires end { 2 ≤ end }
    requires inside { end ≤ length line.old }
    requires room { n < base ^ (end - 1) }
    ensures begin { 1 ≤ result }
    ensures inside { result ≤ length line.new }
    ensures numeral { drop result line.new ≡ numeral base n ++ drop end line.old }
    ensures length { length line.new ≡ length line.old }
{
    if n > 0 {
        return digits_before(line, end, base, n);
    }
    line[end - 1] = b'0';
    end - 1
}

/// Likewise, and nothing for 0.
#[inline(always)]
pub(crate) fn digits_before(line: &mut [u8], end: usize, base: u64, n: u64) -> usize
    requires low { 2 ≤ base }
    requires high { base ≤ 10 }
    requires end { 1 ≤ end }
    requires inside { end ≤ length line.old }
    requires room { n < base ^ (end - 1) }
    ensures begin { 1 ≤ result }
    ensures inside { result ≤ length line.new }
    ensures digits { drop result line.new
        ≡ map (λ d. zero_digit + d) (digits_of base n) ++ drop end line.old }
    ensures length { length line.new ≡ length line.old }
{
    let mut start = end;
    let mut rest = n;
    while rest > 0 {
        start -= 1;
        line[start] = b'0' + (rest % base) as u8;
        rest /= base;
    }
    start
}
