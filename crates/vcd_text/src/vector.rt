//! A change of several digits. It is two tokens, which are read at once where both are there.
ghost use Rattle.std.specs.Prelude.{◌≡◌, ◌≢◌, ◌<◌, ◌≤◌, ◌^◌, [], true, take, length, Some, IfSome};
ghost use Rattle.vcd_text.specs.Scanner.{tokens_of};
ghost use Rattle.vcd_text.specs.Steps.{IsVector, ReadsTo, begins_vector};
ghost use Rattle.vcd_text.specs.Tokens.{rest};
ghost use Rattle.vcd_text.specs.Words.{digits};

use crate::binary::binary_digits;
use crate::short_digits::{SHORT, ShortDigits};
use crate::span::whole_word_len;
use crate::state::{Part, State};
use crate::stop::Stop;
use crate::{Digits, Item};
use std::alloc::Global;

impl State {
    /// Takes a token that ends before an offset. White space stands behind it, and behind that a
    /// tail. If the token is the binary digits of a change, and the tail begins with its code and
    /// white space, those are taken too. Returns also how many bytes of the tail were taken.
    #[inline(always)]
    pub fn take(
        &mut self,
        alloc: Global,
        end: u64,
        token: &[u8],
        tail: &[u8],
    ) -> (Result<Option<Item>, Stop>, usize)
        requires room { length self.old.codes < 2 ^ 32 }
        requires end { end < 2 ^ 32 }
        requires some { token.now ≢ [] }
        ensures within { result.1 ≤ length tail.now }
        ensures whole { rest [] (take result.1 tail.now) ≡ [] }
        ensures read { ReadsTo self.old self.new result.0
            (tokens_of end token.now (take result.1 tail.now)) }
    {
        let at = end.saturating_sub(token.len() as u64);
        if self.is_vector(token) {
            let len = whole_word_len(tail);
            if len > 0 {
                if let Some(digits) = some_binary_digits(&token[1..]) {
                    let digits = Digits::short(digits);
                    let change = self.change(at, digits, end + 1, &tail[..len]);
                    return (change, len + 1);
                }
            }
        }
        (self.step(alloc, at, token), 0)
    }

    /// Whether a token outside a part of the body is the digits of a change.
    fn is_vector(&self, token: &[u8]) -> bool
        ensures { result ≡ true → IsVector self.now token.now }
    {
        if let Part::Nothing = self.part {
            self.is_declared && begins_vector(token)
        } else {
            false
        }
    }
}

/// The digits that the bytes are, if each is `0` or `1`, as nearly all are, and there are 1 to 64.
#[inline(always)]
fn some_binary_digits(bytes: &[u8]) -> Option<ShortDigits>
    ensures { IfSome result (λ found.
        (digits bytes.now ≡ Some found) × (0 < length found)) }
{
    if bytes.is_empty() || bytes.len() > SHORT {
        return None;
    }
    binary_digits(bytes)
}

fn begins_vector(token: &[u8]) -> bool
    ensures { result ≡ begins_vector token.now }
{
    matches!(token, [b'b' | b'B', ..])
}
