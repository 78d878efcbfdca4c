//! Numbers and lines, appended to a text. They are written as the formatter writes them, in fewer
//! steps.
ghost use Rattle.std.specs.Prelude.{◌≡◌, ◌<◌, ◌++◌, OnOk, IsAscii, codes, false};
ghost use Rattle.std.specs.Fmt.{decimal, digit_glyph};
ghost use Rattle.run_log.specs.Growth.{Appends};
ghost use Rattle.run_log.specs.Words.{hex_word};
ghost use Rattle.run_log.specs.Log.{line_text, line_words, word_words};

use crate::line::Line;
use crate::words::cause_word;
use itoa::Buffer;
use std::alloc::AllocError;
use std::str::from_utf8_unchecked;

/// Appends the line of a cycle of this number.
pub(crate) fn push_line(text: &mut String, cycle: u64, line: Line) -> Result<(), AllocError>
    ensures { OnOk result (Appends text.old text.new (line_text cycle line)) }
{
    push_number(text, cycle)?;
    push_words(text, line)?;
    text.push_str("\n")
}

/// Appends a space and what a line tells.
fn push_words(text: &mut String, line: Line) -> Result<(), AllocError>
    ensures { OnOk result (Appends text.old text.new (codes " " ++ line_words line)) }
{
    match line {
        Line::Retire { pc, word } => {
            text.push_str(" retire")?;
            push_word(text, pc)?;
            push_word(text, word)
        }
        Line::Write { register, value } => {
            text.push_str(" write x")?;
            push_number(text, u64::from(register))?;
            push_word(text, value)
        }
        Line::Store {
            address,
            width,
            value,
        } => push_stored(text, address, width, value),
        Line::Cut { keep, target } => {
            text.push_str(" cut ")?;
            push_number(text, u64::from(keep))?;
            push_word(text, target)
        }
        Line::Dispatch { pc, word } => {
            text.push_str(" dispatch")?;
            push_word(text, pc)?;
            push_word_or_none(text, word)
        }
        Line::Drain { keep } => {
            text.push_str(" drain ")?;
            push_number(text, u64::from(keep))
        }
        Line::Stop { cause, pc } => {
            text.push_str(" stop ")?;
            text.push_str(cause_word(cause))?;
            push_word(text, pc)
        }
    }
}

/// Appends a space and what the line of a store tells.
fn push_stored(text: &mut String, address: u32, width: u8, value: u32) -> Result<(), AllocError>
    ensures { OnOk result (Appends text.old text.new
        (codes " " ++ line_words (Line.Store address width value))) }
{
    text.push_str(" store")?;
    push_word(text, address)?;
    text.push_str(" ")?;
    push_number(text, u64::from(width))?;
    push_word(text, value)
}

/// Appends a space and the word of a dispatched instruction, or that there is none.
fn push_word_or_none(text: &mut String, word: Option<u32>) -> Result<(), AllocError>
    ensures { OnOk result (Appends text.old text.new (codes " " ++ word_words word)) }
{
    match word {
        None => text.push_str(" none"),
        Some(word) => push_word(text, word),
    }
}

/// Appends a number in decimal.
fn push_number(text: &mut String, n: u64) -> Result<(), AllocError>
    ensures { OnOk result (Appends text.old text.new (decimal n)) }
{
    let mut buffer = Buffer::new();
    text.push_str(buffer.format(n))
}

/// Appends a space and a word of 32 bits as a `HexWord` is printed.
fn push_word(text: &mut String, word: u32) -> Result<(), AllocError>
    ensures { OnOk result (Appends text.old text.new (codes " " ++ hex_word word)) }
{
    let figures = hex_figures(word);
    // They are ASCII.
    text.push_str(unsafe { from_utf8_unchecked(&figures) })
}

/// A space and the figures of a word of 32 bits, after 0x.
fn hex_figures(word: u32) -> [u8; 11]
    ensures figures { result ≡ codes " " ++ hex_word word }
    ensures ascii { IsAscii result }
{
    let one = word / 16;
    let two = one / 16;
    let three = two / 16;
    let four = three / 16;
    let five = four / 16;
    let six = five / 16;
    let seven = six / 16;
    [
        b' ',
        b'0',
        b'x',
        figure(seven % 16),
        figure(six % 16),
        figure(five % 16),
        figure(four % 16),
        figure(three % 16),
        figure(two % 16),
        figure(one % 16),
        figure(word % 16),
    ]
}

/// A hexadecimal figure in lower case.
fn figure(n: u32) -> u8
    requires { n < 16 }
    ensures figure { result ≡ digit_glyph false n }
    ensures ascii { result < 128 }
{
    if n < 10 {
        b'0' + n as u8
    } else {
        b'a' + (n as u8 - 10)
    }
}
