//! What is printed of a waveform.
ghost use Rattle.std.specs.Prelude.{◌≡◌, ◌++◌, IfOk, Some};
ghost use Rattle.std.specs.String.{string_bytes};
ghost use Rattle.xif_cli.specs.Verdict.{channel_word, rule_word, verdict_line, judged_text};

use std::alloc::Global;
use std::fmt;
use waveform_judge::Judged;
use xif_base::{Key, NoMemory};
use xif_judge::Verdict;
use xif_signals::{Channel, Rule};

/// The line of a waveform.
pub(crate) fn verdict_text(alloc: Global, judged: &Judged) -> Result<String, NoMemory>
    ensures { IfOk result (λ text. string_bytes text ≡ judged_text judged.now) }
{
    match judged.verdict {
        None => Ok(format!(in alloc; "legal cycles={}\n", judged.cycles)?),
        Some(verdict) => verdict_line(alloc, verdict),
    }
}

// The line of a first fault.
fn verdict_line(alloc: Global, verdict: Verdict) -> Result<String, NoMemory>
    ensures { IfOk result (λ text. string_bytes text ≡ verdict_line verdict) }
{
    let rule = rule_word(verdict.rule);
    let channel = channel_word(verdict.channel);
    let mut text = String::new(alloc);
    write!(
        text,
        "illegal cycle={} rule={rule} channel={channel} ",
        verdict.cycle
    )?;
    writeln!(text, "{}", KeyWords(verdict.key))?;
    Ok(text)
}

fn channel_word(channel: Channel) -> &'static str
    ensures { result.now ≡ channel_word channel }
{
    match channel {
        Channel::Issue => "issue",
        Channel::Register => "register",
        Channel::Commit => "commit",
        Channel::Result => "result",
    }
}

fn rule_word(rule: Rule) -> &'static str
    ensures { result.now ≡ rule_word rule }
{
    match rule {
        Rule::K1 => "K1",
        Rule::K2 => "K2",
        Rule::H1 => "H1",
        Rule::I1 => "I1",
        Rule::I2 => "I2",
        Rule::I3 => "I3",
        Rule::I4 => "I4",
        Rule::I5 => "I5",
        Rule::G1 => "G1",
        Rule::G2 => "G2",
        Rule::G3 => "G3",
        Rule::G4 => "G4",
        Rule::G5 => "G5",
        Rule::C1 => "C1",
        Rule::C2 => "C2",
        Rule::C3 => "C3",
        Rule::R1 => "R1",
        Rule::R2 => "R2",
        Rule::R3 => "R3",
        Rule::R4 => "R4",
        Rule::R5 => "R5",
        Rule::R6 => "R6",
    }
}

// Hart and id, where there are any.
#[derive(Clone, Copy)]
struct KeyWords(Option<Key>);

impl fmt::Display for KeyWords {
    ghost use Rattle.std.specs.Prelude.{Some};
    ghost use Rattle.xif_cli.specs.Verdict.{key_words};

    ghost output = { λ words. Some (key_words words.0) };

    fn fmt<W: fmt::Write>(&self, f: &mut fmt::Formatter<W>) -> fmt::Result {
        match self.0 {
            None => f.write_str("hart=- id=-"),
            Some(key) => write!(f, "hart={} id={}", key.hart, key.id),
        }
    }
}
