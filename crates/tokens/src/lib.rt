// The tokens of a text: the first one from a place on, and the place after it.
#![tactic(auto)]

ghost use Rattle.std.specs.Prelude.{◌≡◌, ℕ, true, false, Some, None, [], ◌∷◌, ◌≤◌, ◌<◌, leb, length, MatchOption, IfSome, unwrap_or};
ghost use Rattle.base.specs.Bytes.{byte_at};
ghost use Rattle.base.specs.Cases.{◌∣◌, ◌⇒◌};
ghost use Rattle.grammar.specs.Tokens.{is_space, is_digit, in_run, run_length, in_base, all_digits, is_numeral, numbered, word_of, run_of, logic_of, is_quoted, is_pair, from, end_code, NoWord, word as a_word};
ghost use Rattle.tokens.specs.Answers.{meant, number_as, Stands, QuotedIs, AtFront, PastSpaces, Word, FirstToken, FoundWord};

// A token. A word or a sign is told by its code, its bytes put together in base 256; what is no token is told as the word with code 0.
#[derive(Clone, Copy, PartialEq, Eq)]
pub enum Lexeme {
    Number(u32),
    Signal(usize),
    Variable(usize),
    Logic(u32),
    Word(usize),
    End,
}

const UNKNOWN: Lexeme = Lexeme::Word(0);

// A token, and the place after it.
#[derive(Clone, Copy)]
pub struct Found {
    pub token: Lexeme,
    pub next: usize,
}

#[tactic(auto, unfolding(grammar::specs::Tokens::is_space))]
fn is_space(b: u8) -> bool
    ensures { result ≡ is_space b }
{
    (b == b' ') | (b == b'\n')
}

#[tactic(auto, unfolding(grammar::specs::Tokens::is_digit))]
fn is_digit(b: u8) -> bool
    ensures { result ≡ is_digit b }
{
    (b'0' <= b) & (b <= b'9')
}

#[tactic(auto, unfolding(grammar::specs::Tokens::in_run, grammar::specs::Tokens::is_small))]
fn in_run(b: u8) -> bool
    ensures { result ≡ in_run b }
{
    is_digit(b) | ((b'a' <= b) & (b <= b'z'))
}

// How many letters and digits stand at the front.
fn run_length(t: &[u8]) -> usize
    ensures { (result ≡ run_length t.now) × (result ≤ length t.now) }
{
    t.iter().position(|b| !in_run(*b)).unwrap_or(t.len())
}

// Whether all bytes are digits.
fn all_digits(t: &[u8]) -> bool
    ensures { result ≡ all_digits t.now }
{
    t.iter().all(|b| is_digit(*b))
}

// The number that the bytes say in a base, if it is at most `most`; `origin` is the byte of the digit 0.
fn in_base(t: &[u8], base: usize, origin: usize, most: usize) -> Option<usize>
    requires { (1 ≤ base) × (base ≤ 256) × (most ≤ 72057594037927935) }
    ensures { result ≡ (leb (in_base base origin 0 t.now) most ⇒ Some (in_base base origin 0 t.now) ∣ None) }
{
    let mut v = 0;
    for b in t {
        v = base * v + usize::from(*b).saturating_sub(origin);
        if most < v {
            return None;
        }
    }
    Some(v)
}

// Whether the bytes are digits without a leading zero.
fn is_numeral(t: &[u8]) -> bool
    ensures { result ≡ is_numeral t.now }
{
    if t.len() == 0 {
        return false;
    }
    all_digits(t) & ((t.len() == 1) | (t[0] != b'0'))
}

// The number of a numeral, if it is at most `most`.
fn numeral(t: &[u8], most: usize) -> Option<usize>
    requires { most ≤ 2147483647 }
    ensures token { (code : ℕ) → numbered code most t.now ≡ number_as code result }
    ensures bound { IfSome result (λ v. v ≤ most) }
{
    if is_numeral(t) {
        in_base(t, 10, 48, most)
    } else {
        None
    }
}

// The word that the bytes are, if it has at most seven letters.
fn word_of(t: &[u8]) -> Lexeme
    ensures token { meant result ≡ word_of t.now }
    ensures stands { in_run (byte_at t.now 0) ≡ true → Stands result }
{
    in_base(t, 256, 0, 72057594037927935).map_or(UNKNOWN, Lexeme::Word)
}

// The token that a run of letters and digits is.
fn run_of(t: &[u8]) -> Lexeme
    requires { (1 ≤ length t.now) × (in_run (byte_at t.now 0) ≡ true) }
    ensures token { meant result ≡ run_of t.now }
    ensures stands { Stands result }
{
    let b = t[0];
    if is_digit(b) {
        return numeral(t, 2147483647).map_or(UNKNOWN, |n| Lexeme::Number(n as u32));
    }
    if b == b's' {
        return numeral(&t[1..], 31).map_or(UNKNOWN, Lexeme::Signal);
    }
    if b == b'v' {
        return numeral(&t[1..], 63).map_or(UNKNOWN, Lexeme::Variable);
    }
    word_of(t)
}

// The code of a logic value by its letter.
#[tactic(auto, unfolding(grammar::specs::Tokens::logic_of))]
fn logic_of(b: u8) -> Option<u32>
    ensures { (unwrap_or result 9 ≡ logic_of b) × IfSome result (λ v. v < 9) }
{
    match b {
        b'U' => Some(0),
        b'X' => Some(1),
        b'0' => Some(2),
        b'1' => Some(3),
        b'Z' => Some(4),
        b'W' => Some(5),
        b'L' => Some(6),
        b'H' => Some(7),
        b'-' => Some(8),
        _ => None,
    }
}

// The logic value between quotes at the front.
fn quoted(t: &[u8]) -> Option<u32>
    ensures { MatchOption result (is_quoted t.now ≡ false) (QuotedIs t.now) }
{
    if t.len() < 3 {
        return None;
    }
    let v = logic_of(t[1])?;
    if (t[0] == b'\'') & (t[2] == b'\'') {
        Some(v)
    } else {
        None
    }
}

// Whether := or <= stands at the front.
fn is_pair(t: &[u8]) -> bool
    ensures { result ≡ is_pair t.now }
{
    if t.len() < 2 {
        return false;
    }
    ((t[0] == b':') | (t[0] == b'<')) & (t[1] == b'=')
}

// The token at the front, which is no space; `next` is how many bytes it has.
fn token_at(t: &[u8]) -> Found
    requires { 1 ≤ length t.now }
    ensures { AtFront t.now result.token result.next }
{
    let b = t[0];
    if in_run(b) {
        let n = run_length(t);
        return Found {
            token: run_of(&t[..n]),
            next: n,
        };
    }
    if let Some(v) = quoted(t) {
        return Found {
            token: Lexeme::Logic(v),
            next: 3,
        };
    }
    let sign = usize::from(b);
    if is_pair(t) {
        return Found {
            token: Lexeme::Word(256 * sign + usize::from(t[1])),
            next: 2,
        };
    }
    Found {
        token: Lexeme::Word(sign),
        next: 1,
    }
}

// The first place from `at` on that has no space, if there is one.
fn past_spaces(text: &[u8], at: usize) -> Option<usize>
    requires { at ≤ length text.now }
    ensures { MatchOption result (from text.now at ≡ a_word end_code ∷ []) (PastSpaces text.now at) }
{
    let n = text[at..].iter().position(|b| !is_space(*b))?;
    Some(at + n)
}

// The first token from `at` on.
pub fn token(text: &[u8], at: usize) -> Found
    requires { at ≤ length text.now }
    ensures { FirstToken text.now at result.token result.next }
{
    if let Some(i) = past_spaces(text, at) {
        let found = token_at(&text[i..]);
        return Found {
            token: found.token,
            next: i + found.next,
        };
    }
    Found {
        token: Lexeme::End,
        next: text.len(),
    }
}

// The place past the word c, if it stands at `at`.
pub fn word(text: &[u8], at: usize, c: usize) -> Option<usize>
    requires at_in_bounds { at ≤ length text.now }
    requires word { Word c }
    ensures { MatchOption result (NoWord (from text.now at) c) (FoundWord text.now at c) }
{
    let found = token(text, at);
    match found.token {
        Lexeme::Word(w) if w == c => Some(found.next),
        _ => None,
    }
}
