// The parts of a wait.
ghost use Rattle.std.specs.Prelude.{◌≤◌, ◌≡◌, length, MatchOption, unwrap_or};
ghost use Rattle.fields.specs.Fields.{absent};
ghost use Rattle.grammar.specs.Tokens.{from};
ghost use Rattle.simple.specs.Waits.{FoundSignals, NoSignals, FoundFor, NoFor, FoundUntil, NoUntil};

use phrases::words::{COMMA, FOR, SEMICOLON, UNTIL};
use phrases::{GROUPS, Open, expression, phrase};
use tokens::{Lexeme, token, word};

// What a record has in place of a part of a wait that is not there.
pub const ABSENT: usize = 65535;

// Signals with commas between, as a set.
#[derive(Clone, Copy)]
pub struct Names {
    pub next: usize,
    pub set: u32,
}

// The time of a wait: the place after its semicolon, how many nodes there are with it, and its root if it is there.
#[derive(Clone, Copy)]
pub struct Timed {
    pub next: usize,
    pub nodes: usize,
    pub time: Option<usize>,
}

// The condition and the time of a wait: the same, both roots, and the signals of the condition.
#[derive(Clone, Copy)]
pub struct Waited {
    pub next: usize,
    pub nodes: usize,
    pub condition: Option<usize>,
    pub time: Option<usize>,
    pub set: u32,
}

// Reads signals with commas between, as many as there are.
pub fn signals(text: &[u8], at: usize) -> Option<Names>
    requires { at ≤ length text.now }
    ensures { MatchOption result (NoSignals (from text.now at)) (λ r. FoundSignals text.now at r.next r.set) }
{
    let mut i = at;
    let mut set = 0;
    // Stays: what was read tells where the next turn begins, and no count says how many there are.
    loop {
        let found = token(text, i);
        let Lexeme::Signal(n) = found.token else {
            return None;
        };
        set = set | (1 << n);
        let Some(next) = word(text, found.next, COMMA) else {
            return Some(Names {
                next: found.next,
                set: set,
            });
        };
        i = next;
    }
}

// Reads `for e ;` or the semicolon alone.
fn time_part(
    text: &[u8],
    at: usize,
    n: usize,
    nodes: &mut [u8],
    stack: &mut [Open; GROUPS],
) -> Option<Timed>
    requires { (at ≤ length text.now) × (length text.now ≤ 65535) × (n ≤ at) }
    ensures { MatchOption result (NoFor (from text.now at)) (λ r. FoundFor text.now at n r.next r.nodes (unwrap_or r.time absent) nodes.old nodes.new) }
{
    let found = token(text, at);
    if found.token == Lexeme::Word(SEMICOLON) {
        return Some(Timed {
            next: found.next,
            nodes: n,
            time: None,
        });
    }
    if found.token != Lexeme::Word(FOR) {
        return None;
    }
    let e = phrase(text, found.next, SEMICOLON, n, nodes, stack)?;
    Some(Timed {
        next: e.next,
        nodes: e.nodes,
        time: Some(e.nodes - 1),
    })
}

// Reads `until e` and `for e`, each if it is there, and the semicolon.
pub fn until_part(
    text: &[u8],
    at: usize,
    n: usize,
    nodes: &mut [u8],
    stack: &mut [Open; GROUPS],
) -> Option<Waited>
    requires { (at ≤ length text.now) × (length text.now ≤ 65535) × (n ≤ at) }
    ensures { MatchOption result (NoUntil (from text.now at)) (λ r. FoundUntil text.now at n r.next r.nodes (unwrap_or r.condition absent) (unwrap_or r.time absent) r.set nodes.old nodes.new) }
{
    let Some(next) = word(text, at, UNTIL) else {
        let f = time_part(text, at, n, nodes, stack)?;
        return Some(Waited {
            next: f.next,
            nodes: f.nodes,
            condition: None,
            time: f.time,
            set: 0,
        });
    };
    let e = expression(text, next, n, nodes, stack)?;
    let f = time_part(text, e.next, e.nodes, nodes, stack)?;
    Some(Waited {
        next: f.next,
        nodes: f.nodes,
        condition: Some(e.nodes - 1),
        time: f.time,
        set: e.signals,
    })
}
