// Expressions, read by a loop with a stack of open groups, so that no call nests with the text.
#![tactic(auto)]

pub mod words;

ghost use Rattle.std.specs.Prelude.{◌≡◌, ◌+◌, Some, None, true, ◌||◌, ◌∷◌, ◌≤◌, ◌<◌, ◌≢◌, eqb, length, MatchOption};
ghost use Rattle.grammar.specs.Tokens.{from, tok, word as a_word, signal_code};
ghost use Rattle.tokens.specs.Answers.{Word};
ghost use Rattle.grammar.specs.Words.{opening, delayed_word, operator_of};
ghost use Rattle.grammar.specs.Made.{set_with};
ghost use Rattle.phrases.specs.Phrases.{FoundExpression, NoExpression, FoundPhrase, NoPhrase, FoundOperator, NoOperator, OperandIs, leaf_signals};

use crate::words::{
    AND, CLOSING, DELAYED, EQUALS, LESS, MINUS, MOD, NOT, OPENING, OR, OVER, PLUS, REM, TIMES, XOR,
};
use tokens::{Lexeme, token, word};
use writing::put_record;

// How many groups can be open: a text has at most 65,535 bytes.
pub const GROUPS: usize = 65536;

// An expression: the place after it, how many nodes there are with it, and the set of its signals.
#[derive(Clone, Copy)]
pub struct Reading {
    pub next: usize,
    pub nodes: usize,
    pub signals: u32,
}

// An open group: before its operator; after `not` or `-`, by the node kind; or after its operator, by the node kind and the first operand's root.
// Stays: node kinds are numbers, those that stand in the records (`nodes_of`, `operator_of`).
#[derive(Clone, Copy)]
pub enum Open {
    First,
    Prefix(u8),
    Second(u8, u16),
}

// What stands where an operand is awaited, and the place after it: an expression of one node, or a group that opens, with the node kind of `not`
// or `-` if one stands there.
#[derive(Clone, Copy)]
enum Awaited {
    Leaf(Leaf, usize),
    Group(Option<u8>, usize),
}

#[derive(Clone, Copy)]
struct Leaf {
    kind: usize,
    a: usize,
    k: u32,
}

#[derive(Clone, Copy)]
struct Infix {
    kind: u8,
    next: usize,
}

// What follows ( s delayed
fn delay(text: &[u8], at: usize, s: usize) -> Option<Awaited>
    requires { (at ≤ length text.now) × (s < 32) }
    ensures { OperandIs text.now (a_word opening ∷ tok signal_code s ∷ a_word delayed_word ∷ from text.now at) at result }
{
    let found = token(text, at);
    let Lexeme::Number(k) = found.token else {
        return None;
    };
    if 31 < k {
        return None;
    }
    let next = word(text, found.next, CLOSING)?;
    Some(Awaited::Leaf(
        Leaf {
            kind: 5,
            a: s,
            k: k,
        },
        next,
    ))
}

// What follows an opening bracket.
fn group(text: &[u8], at: usize) -> Option<Awaited>
    requires { at ≤ length text.now }
    ensures { OperandIs text.now (a_word opening ∷ from text.now at) at result }
{
    let found = token(text, at);
    if found.token == Lexeme::Word(NOT) {
        return Some(Awaited::Group(Some(6), found.next));
    }
    if found.token == Lexeme::Word(MINUS) {
        return Some(Awaited::Group(Some(10), found.next));
    }
    if let Lexeme::Signal(s) = found.token {
        if let Some(next) = word(text, found.next, DELAYED) {
            return delay(text, next, s);
        }
    }
    Some(Awaited::Group(None, at))
}

// What stands where an operand is awaited.
fn operand(text: &[u8], at: usize) -> Option<Awaited>
    requires { at ≤ length text.now }
    ensures { OperandIs text.now (from text.now at) (at + 1) result }
{
    let found = token(text, at);
    let leaf = match found.token {
        Lexeme::Number(k) => Leaf {
            kind: 1,
            a: 0,
            k: k,
        },
        Lexeme::Logic(k) => Leaf {
            kind: 2,
            a: 0,
            k: k,
        },
        Lexeme::Variable(a) => Leaf {
            kind: 3,
            a: a,
            k: 0,
        },
        Lexeme::Signal(a) => Leaf {
            kind: 4,
            a: a,
            k: 0,
        },
        Lexeme::Word(OPENING) => return group(text, found.next),
        _ => return None,
    };
    Some(Awaited::Leaf(leaf, found.next))
}

// The node kind of an operator between two operands.
#[tactic(auto, unfolding(grammar::specs::Words::operator_of))]
fn operator_of(c: usize) -> Option<u8>
    ensures { MatchOption result (operator_of c ≡ 0) (λ k. (k ≡ operator_of c) × (k ≢ 0)) }
{
    match c {
        AND => Some(7),
        OR => Some(8),
        XOR => Some(9),
        PLUS => Some(11),
        MINUS => Some(12),
        EQUALS => Some(13),
        LESS => Some(14),
        TIMES => Some(15),
        OVER => Some(16),
        MOD => Some(17),
        REM => Some(18),
        _ => None,
    }
}

// The operator that stands at a place.
fn operator(text: &[u8], at: usize) -> Option<Infix>
    requires { at ≤ length text.now }
    ensures { MatchOption result (NoOperator (from text.now at)) (λ o. FoundOperator text.now at o.kind o.next) }
{
    let found = token(text, at);
    let Lexeme::Word(c) = found.token else {
        return None;
    };
    let kind = operator_of(c)?;
    Some(Infix {
        kind: kind,
        next: found.next,
    })
}

// The set of signals with that of an expression of one node.
fn with_leaf(set: u32, kind: usize, a: usize) -> u32
    requires { (eqb kind 4 || eqb kind 5) ≡ true → a < 32 }
    ensures { result ≡ set_with set (leaf_signals kind a) }
{
    if (kind == 4) | (kind == 5) {
        set | (1 << a)
    } else {
        set
    }
}

// Reads an expression. Its nodes are put behind the `nodes` that are there; `stack` is room for the open groups.
pub fn expression(
    text: &[u8],
    at: usize,
    nodes: usize,
    out: &mut [u8],
    stack: &mut [Open; GROUPS],
) -> Option<Reading>
    requires { (at ≤ length text.now) × (length text.now ≤ 65535) × (nodes ≤ at) }
    ensures { MatchOption result (NoExpression (from text.now at)) (λ e. FoundExpression text.now at nodes e.next e.nodes e.signals out.old out.new) }
{
    let mut i = at;
    let mut n = nodes;
    let mut set = 0;
    let mut depth = 0;
    let mut wanted = true;
    // Stays: what was read tells where the next turn begins, and no count says how many there are.
    loop {
        if wanted {
            match operand(text, i)? {
                Awaited::Leaf(leaf, next) => {
                    put_record(out, n, leaf.kind, leaf.a, 0, 0, leaf.k);
                    set = with_leaf(set, leaf.kind, leaf.a);
                    n += 1;
                    wanted = false;
                    i = next;
                }
                Awaited::Group(prefix, next) => {
                    stack[depth] = prefix.map_or(Open::First, Open::Prefix);
                    depth += 1;
                    i = next;
                }
            }
        } else if depth == 0 {
            return Some(Reading {
                next: i,
                nodes: n,
                signals: set,
            });
        } else {
            match stack[depth - 1] {
                Open::First => {
                    let o = operator(text, i)?;
                    stack[depth - 1] = Open::Second(o.kind, (n - 1) as u16);
                    wanted = true;
                    i = o.next;
                }
                Open::Prefix(kind) => {
                    i = word(text, i, CLOSING)?;
                    put_record(out, n, usize::from(kind), n - 1, 0, 0, 0);
                    n += 1;
                    depth -= 1;
                }
                Open::Second(kind, first) => {
                    i = word(text, i, CLOSING)?;
                    put_record(out, n, usize::from(kind), usize::from(first), n - 1, 0, 0);
                    n += 1;
                    depth -= 1;
                }
            }
        }
    }
}

// Reads an expression and the word c after it.
pub fn phrase(
    text: &[u8],
    at: usize,
    c: usize,
    nodes: usize,
    out: &mut [u8],
    stack: &mut [Open; GROUPS],
) -> Option<Reading>
    requires at_in_bounds { (at ≤ length text.now) × (length text.now ≤ 65535) × (nodes ≤ at) }
    requires word { Word c }
    ensures { MatchOption result (NoPhrase (from text.now at) c) (λ e. FoundPhrase text.now at c nodes e.next e.nodes e.signals out.old out.new) }
{
    let e = expression(text, at, nodes, out, stack)?;
    let next = word(text, e.next, c)?;
    Some(Reading {
        next: next,
        nodes: e.nodes,
        signals: e.signals,
    })
}
