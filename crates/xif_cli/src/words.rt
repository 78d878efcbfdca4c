//! The words of the command line.
ghost use Rattle.std.specs.Prelude.{◌≡◌, ◌^◌, ◌<◌, ◌↔◌, ℕ, [], ◌∷◌, Some, map, IsTrue, IfSome};
ghost use Rattle.std.specs.Fmt.{decimal};
ghost use Rattle.std.specs.Option.{option_map};
ghost use Rattle.std.specs.String.{string_bytes};
ghost use Rattle.xif_cli.specs.Words.{Form, IsWithin, HasPlainStart, IsCommand, form_of};

/// What the words after the program's name ask for.
#[derive(Clone, Copy, Debug, PartialEq, Eq)]
pub(crate) enum Command<'a> {
    /// `raw IMAGE COUNT`: run the image's bytes alone, for at most COUNT retirements.
    Raw { image: &'a str, count: u32 },
    /// `step JOB`: run the job on the in-order machine.
    Step { job: &'a str },
    /// `run JOB`: simulate the job.
    Run { job: &'a str },
    /// `judge JOB WAVEFORM`: judge the waveform.
    Judge { job: &'a str, waveform: &'a str },
    /// `gen SEED COUNT`: simulate a program that goes COUNT times round a loop, under a script of
    /// delays drawn from SEED.
    Gen { seed: u32, count: u32 },
    /// `harts JOB`: simulate a job of several harts.
    Harts { job: &'a str },
    /// `replay JOB WAVEFORM`: say whether the coprocessor of a waveform answered as the job's
    /// tables do.
    Replay { job: &'a str, waveform: &'a str },
}

/// What the words ask for; `None` if and only if they are no form of the command line.
pub(crate) fn parse_command(words: &[String]) -> Option<Command<'_>>
    ensures found { IfSome result (λ c. IsCommand (map string_bytes words.now) (form_of c)) }
    ensures only { (form : Form) → IsCommand (map string_bytes words.now) form →
        option_map form_of result ≡ Some form }
{
    match words {
        [name, first] => parse_two(name.as_str(), first.as_str()),
        [name, first, second] => parse_three(name.as_str(), first.as_str(), second.as_str()),
        _ => None,
    }
}

// The forms of two words.
fn parse_two<'a>(name: &str, first: &'a str) -> Option<Command<'a>>
    ensures found { IfSome result (λ c. IsCommand (name.now ∷ first.now ∷ []) (form_of c)) }
    ensures only { (form : Form) → IsCommand (name.now ∷ first.now ∷ []) form →
        option_map form_of result ≡ Some form }
{
    match name {
        "step" => Some(Command::Step { job: first }),
        "run" => Some(Command::Run { job: first }),
        "harts" => Some(Command::Harts { job: first }),
        _ => None,
    }
}

// The forms of three words.
fn parse_three<'a>(name: &str, first: &'a str, second: &'a str) -> Option<Command<'a>>
    ensures found { IfSome result (λ c.
        IsCommand (name.now ∷ first.now ∷ second.now ∷ []) (form_of c)) }
    ensures only { (form : Form) → IsCommand (name.now ∷ first.now ∷ second.now ∷ []) form →
        option_map form_of result ≡ Some form }
{
    match name {
        "raw" => {
            let count = number_within(second, 1, 1_000_000)?;
            Some(Command::Raw {
                image: first,
                count,
            })
        }
        "judge" => Some(Command::Judge {
            job: first,
            waveform: second,
        }),
        "gen" => {
            let seed = number_within(first, 0, u32::MAX)?;
            let count = number_within(second, 1, 20_000)?;
            Some(Command::Gen { seed, count })
        }
        "replay" => Some(Command::Replay {
            job: first,
            waveform: second,
        }),
        _ => None,
    }
}

// The number that the word writes, where it is from `low` to `high`.
fn number_within(word: &str, low: u32, high: u32) -> Option<u32>
    ensures range { IfSome result (λ n. IsWithin low high n) }
    ensures found { IfSome result (λ n. word.now ≡ decimal n) }
    ensures only { (n : ℕ) → IsWithin low high n → word.now ≡ decimal n → result ≡ Some n }
{
    let n = parse_number(word)?;
    if low <= n && n <= high { Some(n) } else { None }
}

// The number that the word writes in decimal digits, without sign or leading zeros.
fn parse_number(word: &str) -> Option<u32>
    ensures found { IfSome result (λ n. word.now ≡ decimal n) }
    ensures only { (n : ℕ) → n < 2 ^ 32 → word.now ≡ decimal n → result ≡ Some n }
{
    if has_plain_start(word) {
        word.parse().ok()
    } else {
        None
    }
}

// Whether the word begins with no plus sign, which `parse` takes, and with no zero before more.
fn has_plain_start(word: &str) -> bool
    ensures { IsTrue result ↔ HasPlainStart word.now }
{
    match word.as_bytes() {
        [b'+', ..] => false,
        [b'0', _, ..] => false,
        _ => true,
    }
}
