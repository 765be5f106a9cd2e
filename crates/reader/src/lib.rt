// The reader of a process body: lists and statements call each other, a list being a loop over its statements.
#![tactic(auto)]

ghost use Rattle.std.specs.Prelude.{◌≡◌, ◌∷◌, ◌≤◌, ◌<◌, length, MatchOption};
ghost use Rattle.base.specs.Refusals.{told};
ghost use Rattle.grammar.specs.Tokens.{from, word as a_word};
ghost use Rattle.tokens.specs.Answers.{Word};
ghost use Rattle.grammar.specs.Words.{while_word, if_word};
ghost use Rattle.simple.specs.Statements.{AnswerStatement};
ghost use Rattle.reader.specs.Reading.{FoundEnding, NoEnding, Behind, LoopPut, ChoicePut, AnswerList, Read, nodes_read, statements_read};

use base::refusal::Refusal;
use phrases::words::{ELSE, END_WORD, IF, LOOP, NULL, SEMICOLON, THEN, WAIT, WHILE};
use phrases::{GROUPS, Open, phrase};
use simple::{Made, assigned, driven, waiting};
use std::array;
use tokens::{Lexeme, token, word};
use writing::put_record;

// The longest text.
pub const LONGEST: usize = 65535;

// How many levels of `if` and `while` a text can have.
pub const LEVELS: usize = 16;

// The place past the word c and a semicolon, if they stand at `at`.
fn ending(text: &[u8], at: usize, c: usize) -> Option<usize>
    requires at_in_bounds { at ≤ length text.now }
    requires word { Word c }
    ensures { MatchOption result (NoEnding (from text.now at) c) (FoundEnding text.now at c) }
{
    let next = word(text, at, c)?;
    word(text, next, SEMICOLON)
}

// Puts the statements around a loop's list, which ends at `end`; the condition's root is the last of n nodes.
fn put_loop(out: &mut [u8], k: usize, end: usize, n: usize)
    requires { (k < 65535) × (end < 65535) × (0 < n) × (n ≤ 65535) }
    ensures { LoopPut k end n out.old out.new }
{
    put_record(out, k, 3, end + 1, n - 1, 0, 0);
    put_record(out, end, 4, k, 0, 0, 0);
    put_record(out, end + 1, 0, 0, 0, 0, 0);
}

// Puts the statements around the two lists of a choice, which end at `middle` and `end`.
fn put_choice(out: &mut [u8], k: usize, middle: usize, end: usize, n: usize)
    requires { (k < 65535) × (middle < 65535) × (end < 65535) × (0 < n) × (n ≤ 65535) }
    ensures { ChoicePut k middle end n out.old out.new }
{
    put_record(out, k, 3, middle + 1, n - 1, 0, 0);
    put_record(out, middle, 4, end, 0, 0, 0);
    put_record(out, end, 0, 0, 0, 0, 0);
}

// Reads what follows the word `while`.
#[cycle(chosen_list_repeated_statement)]
fn repeated(
    text: &[u8],
    at: usize,
    room: usize,
    n: usize,
    k: usize,
    nodes: &mut [u8],
    out: &mut [u8],
    stack: &mut [Open; GROUPS],
) -> Option<Made>
    requires { (at ≤ length text.now) × (length text.now ≤ 65535) × (n ≤ at) × (k < at) × (0 < room) }
    ensures { AnswerStatement text.now (a_word while_word ∷ from text.now at) at room n k result nodes.old nodes.new out.old out.new }
{
    let e = phrase(text, at, LOOP, n, nodes, stack)?;
    let p = list(
        text,
        e.next,
        room - 1,
        Lexeme::Word(END_WORD),
        e.nodes,
        k + 1,
        nodes,
        out,
        stack,
    )?;
    let next = ending(text, p.next, LOOP)?;
    put_loop(out, k, p.statements, e.nodes);
    Some(Made {
        next: next,
        nodes: p.nodes,
        statements: p.statements + 2,
    })
}

// Reads what follows the word `if`.
#[cycle(chosen_list_repeated_statement)]
fn chosen(
    text: &[u8],
    at: usize,
    room: usize,
    n: usize,
    k: usize,
    nodes: &mut [u8],
    out: &mut [u8],
    stack: &mut [Open; GROUPS],
) -> Option<Made>
    requires { (at ≤ length text.now) × (length text.now ≤ 65535) × (n ≤ at) × (k < at) × (0 < room) }
    ensures { AnswerStatement text.now (a_word if_word ∷ from text.now at) at room n k result nodes.old nodes.new out.old out.new }
{
    let e = phrase(text, at, THEN, n, nodes, stack)?;
    let p = list(
        text,
        e.next,
        room - 1,
        Lexeme::Word(ELSE),
        e.nodes,
        k + 1,
        nodes,
        out,
        stack,
    )?;
    let q = list(
        text,
        p.next,
        room - 1,
        Lexeme::Word(END_WORD),
        p.nodes,
        p.statements + 1,
        nodes,
        out,
        stack,
    )?;
    let next = ending(text, q.next, IF)?;
    put_choice(out, k, p.statements, q.statements, e.nodes);
    Some(Made {
        next: next,
        nodes: q.nodes,
        statements: q.statements + 1,
    })
}

// Reads a statement with at most `room` levels in it.
#[cycle(chosen_list_repeated_statement)]
fn statement(
    text: &[u8],
    at: usize,
    room: usize,
    n: usize,
    k: usize,
    nodes: &mut [u8],
    out: &mut [u8],
    stack: &mut [Open; GROUPS],
) -> Option<Made>
    requires { (at ≤ length text.now) × (length text.now ≤ 65535) × (n ≤ at) × (k ≤ at) }
    ensures { AnswerStatement text.now (from text.now at) at room n k result nodes.old nodes.new out.old out.new }
{
    let found = token(text, at);
    let next = found.next;
    match found.token {
        Lexeme::Word(NULL) => {
            let end = word(text, next, SEMICOLON)?;
            put_record(out, k, 0, 0, 0, 0, 0);
            Some(Made {
                next: end,
                nodes: n,
                statements: k + 1,
            })
        }
        Lexeme::Variable(v) => assigned(text, next, v, n, k, nodes, out, stack),
        Lexeme::Signal(s) => driven(text, next, s, n, k, nodes, out, stack),
        Lexeme::Word(WAIT) => waiting(text, next, n, k, nodes, out, stack),
        Lexeme::Word(WHILE) if 0 < room => repeated(text, next, room, n, k, nodes, out, stack),
        Lexeme::Word(IF) if 0 < room => chosen(text, next, room, n, k, nodes, out, stack),
        _ => None,
    }
}

// Reads a list of statements and the token `stop` after it.
#[cycle(chosen_list_repeated_statement)]
fn list(
    text: &[u8],
    at: usize,
    room: usize,
    stop: Lexeme,
    n: usize,
    k: usize,
    nodes: &mut [u8],
    out: &mut [u8],
    stack: &mut [Open; GROUPS],
) -> Option<Made>
    requires { (at ≤ length text.now) × (length text.now ≤ 65535) × (n ≤ at) × (k ≤ at) × Behind stop }
    ensures { AnswerList text.now at room stop n k result nodes.old nodes.new out.old out.new }
{
    let mut i = at;
    let mut m = n;
    let mut j = k;
    // Stays: what was read tells where the next turn begins, and no count says how many there are.
    loop {
        let s = statement(text, i, room, m, j, nodes, out, stack)?;
        let found = token(text, s.next);
        if found.token == stop {
            return Some(Made {
                next: found.next,
                nodes: s.nodes,
                statements: s.statements,
            });
        }
        i = s.next;
        m = s.nodes;
        j = s.statements;
    }
}

// How many nodes and statements a text makes.
#[derive(Clone, Copy)]
pub struct Counts {
    pub nodes: usize,
    pub statements: usize,
}

// Reads a text: its nodes and statements are in the buffers as far as these reach, 12 bytes each; or it is no sentence, and nothing is written.
pub fn read(text: &[u8], nodes: &mut [u8], statements: &mut [u8]) -> Result<Counts, Refusal>
    ensures { Read text.now (told result) (nodes_read result) (statements_read result) nodes.old nodes.new statements.old statements.new }
{
    if LONGEST < text.len() {
        return Err(Refusal::NoSentence);
    }
    // By from_fn the compiler writes the room once, and behind the test above; as `[Open::First; GROUPS]` twice, and before it.
    let mut stack: [Open; GROUPS] = array::from_fn(|_| Open::First);
    let mut no_nodes = [0u8; 1];
    let mut no_statements = [0u8; 1];
    let judged = list(
        text,
        0,
        LEVELS,
        Lexeme::End,
        0,
        0,
        &mut no_nodes,
        &mut no_statements,
        &mut stack,
    );
    if judged.is_none() {
        return Err(Refusal::NoSentence);
    }
    let Some(r) = list(
        text,
        0,
        LEVELS,
        Lexeme::End,
        0,
        0,
        nodes,
        statements,
        &mut stack,
    ) else {
        return Err(Refusal::NoSentence);
    };
    Ok(Counts {
        nodes: r.nodes,
        statements: r.statements,
    })
}
