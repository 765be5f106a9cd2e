// The records that are given with a text: whether all their bytes are there, and whether the text names others.
#![tactic(auto)]

ghost use Rattle.std.specs.Prelude.{◌≡◌};
ghost use Rattle.given.specs.Given.{whole_ok};
ghost use Rattle.given.specs.Names.{token_ok, named};
ghost use Rattle.tokens.specs.Answers.{meant, Fits};

use packing::byte_or_zero;
use tokens::{Lexeme, token};

// Whether the bytes are as many as the three numbers say.
pub fn whole_ok(given: &[u8]) -> bool
    ensures { result ≡ whole_ok given.now }
{
    given.len()
        == 3 + 12 * byte_or_zero(given, 0)
            + 12 * byte_or_zero(given, 1)
            + 12 * byte_or_zero(given, 2)
}

// Whether a token names no signal or variable, or one of so many.
fn name_ok(signals: usize, variables: usize, token: Lexeme) -> bool
    requires { Fits token }
    ensures { result ≡ token_ok signals variables (meant token) }
{
    match token {
        Lexeme::Signal(n) => n < signals,
        Lexeme::Variable(n) => n < variables,
        _ => true,
    }
}

// Whether each name of a text is one of so many signals and variables.
pub fn names_ok(text: &[u8], signals: usize, variables: usize) -> bool
    ensures { result ≡ named signals variables text.now }
{
    let mut at = 0;
    // Stays: the next place is what the token tells, and no count says how many tokens there are.
    loop {
        let found = token(text, at);
        if found.token == Lexeme::End {
            return true;
        }
        if !name_ok(signals, variables, found.token) {
            return false;
        }
        at = found.next;
    }
}
