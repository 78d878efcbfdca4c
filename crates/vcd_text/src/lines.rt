//! The lines of a text that is written. Each is made in an array and appended at once.
ghost use Rattle.std.specs.Prelude.{◌≡◌, ◌<◌, ◌+◌, ◌*◌, ◌^◌, ◌++◌, ◌∷◌, [], OnOk, OnErr, codes};
ghost use Rattle.xif_base.specs.Params.{IsInRange};
ghost use Rattle.vcd_text.specs.Written.{numeral, var_line, time_line, clock_line, change_line, with_space, with_line_end};

use crate::numeral::{digits_before, numeral_before};
use xif_base::{NoMemory, Params};
use xif_signals::Signal;

/// How many digits a decimal number has at most.
const MOST_DIGITS: usize = 20;

/// Where the digits of ten times a time end in the lines of an edge.
const TENS_END: usize = 20;

/// How many bytes the lines of an edge have at most.
const EDGE_LENGTH: usize = TENS_END + 5;

/// Where the bits end in the line of a change.
const BITS_END: usize = 65;

/// How many bytes the line of a change has at most.
const CHANGE_LENGTH: usize = BITS_END + 3;

/// The declaration of the variable of a signal (18.2.3, `$var`).
pub(crate) fn put_variable(
    text: &mut Vec<u8>,
    params: &Params,
    signal: Signal,
) -> Result<(), NoMemory>
    requires { IsInRange params.now }
    ensures { OnOk result (text.new.items ≡ text.old.items ++ var_line params.now signal) }
{
    text.extend_from_slice(b"$var wire ")?;
    put_decimal(text, signal.width(params))?;
    text.push(b' ')?;
    text.push(signal.code())?;
    text.push(b' ')?;
    text.extend_from_slice(signal.name().as_bytes())?;
    text.extend_from_slice(b" $end\n")?;
    Ok(())
}

fn put_decimal(text: &mut Vec<u8>, n: u8) -> Result<(), NoMemory>
    ensures { OnOk result (text.new.items ≡ text.old.items ++ numeral 10 n) }
{
    let mut digits = [0; MOST_DIGITS];
    let start = numeral_before(&mut digits, MOST_DIGITS, 10, u64::from(n));
    text.extend_from_slice(&digits[start..])?;
    Ok(())
}

/// A time, which is ten times a number and a digit, and the clock's value from then on.
pub(crate) fn put_edge(text: &mut Vec<u8>, tens: u64, digit: u8, clock: u8) -> Result<(), NoMemory>
    requires tens { tens < 10 ^ 19 }
    requires digit { digit < 10 }
    requires clock { clock < 2 }
    ensures ok { OnOk result (text.new.items
        ≡ text.old.items ++ (time_line (10 * tens + digit) ++ clock_line clock)) }
    ensures err { OnErr result (text.new.items ≡ text.old.items) }
{
    let mut line = [0; EDGE_LENGTH];
    line[TENS_END] = b'0' + digit;
    line[TENS_END + 1] = b'\n';
    line[TENS_END + 2] = b'0' + clock;
    line[TENS_END + 3] = b'!';
    line[TENS_END + 4] = b'\n';
    let start = digits_before(&mut line, TENS_END, 10, tens);
    line[start - 1] = b'#';
    text.extend_from_slice(&line[start - 1..])?;
    Ok(())
}

/// A change of the variable of a code to a value, which has this width in bits.
pub(crate) fn put_change(
    text: &mut Vec<u8>,
    width: u8,
    code: u8,
    value: u64,
) -> Result<(), NoMemory>
    requires { value < 2 ^ width }
    ensures ok { OnOk result
        (text.new.items ≡ text.old.items ++ change_line width (code ∷ []) value) }
    ensures err { OnErr result (text.new.items ≡ text.old.items) }
{
    if width == 1 {
        text.extend_from_slice(&[b'0' + value as u8, code, b'\n'])?;
        return Ok(());
    }
    put_bits(text, code, value)
}

/// Likewise where the width isn't one bit.
fn put_bits(text: &mut Vec<u8>, code: u8, value: u64) -> Result<(), NoMemory>
    ensures ok { OnOk result (text.new.items ≡ text.old.items
        ++ (with_space (codes "b" ++ numeral 2 value) ++ with_line_end (code ∷ []))) }
    ensures err { OnErr result (text.new.items ≡ text.old.items) }
{
    let mut line = [0; CHANGE_LENGTH];
    line[BITS_END] = b' ';
    line[BITS_END + 1] = code;
    line[BITS_END + 2] = b'\n';
    let start = numeral_before(&mut line, BITS_END, 2, value);
    line[start - 1] = b'b';
    text.extend_from_slice(&line[start - 1..])?;
    Ok(())
}
