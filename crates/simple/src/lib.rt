// Simple statements: assignments, and waits with their parts.
#![tactic(auto)]

pub mod waits;

ghost use Rattle.std.specs.Prelude.{◌≡◌, ◌∷◌, ◌≤◌, ◌<◌, length};
ghost use Rattle.grammar.specs.Tokens.{from, tok, word as a_word, signal_code, variable_code};
ghost use Rattle.grammar.specs.Words.{wait_word};
ghost use Rattle.simple.specs.Statements.{AnswerSimple};

use crate::waits::{ABSENT, signals, until_part};
use phrases::words::{AFTER, BECOMES, DRIVES, ON, SEMICOLON};
use phrases::{GROUPS, Open, phrase};
use tokens::word;
use writing::put_record;

// A statement: the place after it, and how many nodes and statements there are with it.
#[derive(Clone, Copy)]
pub struct Made {
    pub next: usize,
    pub nodes: usize,
    pub statements: usize,
}

// Reads what follows a variable's name: := e ;
pub fn assigned(
    text: &[u8],
    at: usize,
    v: usize,
    n: usize,
    k: usize,
    nodes: &mut [u8],
    out: &mut [u8],
    stack: &mut [Open; GROUPS],
) -> Option<Made>
    requires { (at ≤ length text.now) × (length text.now ≤ 65535) × (n ≤ at) × (k < at) × (v < 64) }
    ensures { AnswerSimple text.now (tok variable_code v ∷ from text.now at) at n k result nodes.old nodes.new out.old out.new }
{
    let next = word(text, at, BECOMES)?;
    let e = phrase(text, next, SEMICOLON, n, nodes, stack)?;
    put_record(out, k, 1, v, e.nodes - 1, 0, 0);
    Some(Made {
        next: e.next,
        nodes: e.nodes,
        statements: k + 1,
    })
}

// Reads what follows a signal's name: <= e after e ;
pub fn driven(
    text: &[u8],
    at: usize,
    s: usize,
    n: usize,
    k: usize,
    nodes: &mut [u8],
    out: &mut [u8],
    stack: &mut [Open; GROUPS],
) -> Option<Made>
    requires { (at ≤ length text.now) × (length text.now ≤ 65535) × (n ≤ at) × (k < at) × (s < 64) }
    ensures { AnswerSimple text.now (tok signal_code s ∷ from text.now at) at n k result nodes.old nodes.new out.old out.new }
{
    let next = word(text, at, DRIVES)?;
    let e = phrase(text, next, AFTER, n, nodes, stack)?;
    let f = phrase(text, e.next, SEMICOLON, e.nodes, nodes, stack)?;
    put_record(out, k, 2, s, e.nodes - 1, f.nodes - 1, 0);
    Some(Made {
        next: f.next,
        nodes: f.nodes,
        statements: k + 1,
    })
}

// Reads what follows the word `wait`.
pub fn waiting(
    text: &[u8],
    at: usize,
    n: usize,
    k: usize,
    nodes: &mut [u8],
    out: &mut [u8],
    stack: &mut [Open; GROUPS],
) -> Option<Made>
    requires { (at ≤ length text.now) × (length text.now ≤ 65535) × (n ≤ at) × (k < at) }
    ensures { AnswerSimple text.now (a_word wait_word ∷ from text.now at) at n k result nodes.old nodes.new out.old out.new }
{
    let Some(next) = word(text, at, ON) else {
        let u = until_part(text, at, n, nodes, stack)?;
        let condition = u.condition.unwrap_or(ABSENT);
        let time = u.time.unwrap_or(ABSENT);
        put_record(out, k, 5, 0, condition, time, u.set);
        return Some(Made {
            next: u.next,
            nodes: u.nodes,
            statements: k + 1,
        });
    };
    let s = signals(text, next)?;
    let u = until_part(text, s.next, n, nodes, stack)?;
    let condition = u.condition.unwrap_or(ABSENT);
    let time = u.time.unwrap_or(ABSENT);
    put_record(out, k, 5, 0, condition, time, s.set);
    Some(Made {
        next: u.next,
        nodes: u.nodes,
        statements: k + 1,
    })
}
