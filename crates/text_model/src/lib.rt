// A text and the records that are given with it, made into a model's blocks.
#![tactic(auto)]

ghost use Rattle.std.specs.Prelude.{◌≡◌, ◌*◌, ◌≤◌, length, replicate};
ghost use Rattle.std.proofs.lemmas.List.Edits.{sets};
ghost use Rattle.base.specs.Rules.{first_failing};
ghost use Rattle.grammar.specs.Grammar.{Statement};
ghost use Rattle.grammar.specs.Made.{made_nodes, made_statements};
ghost use Rattle.writing.specs.Written.{node_bytes, statement_bytes};
ghost use Rattle.packing.specs.Packed.{PackedIn};
ghost use Rattle.given.specs.Given.{given_rules, parts_from};
ghost use Rattle.text_model.specs.Texts.{text_room, records_room, model_room, GivenFits, Taken, nodes_taken, statements_taken, blocks_taken};
ghost use Rattle.base.specs.Refusals.{told};

use base::refusal::Refusal;
use blocks::blocks::totals_ok;
use blocks::index::Totals;
use given::{names_ok, whole_ok};
use model::load::judge;
use packing::{byte_or_zero, pack};
use reader::read;
use writing::put_record;

// The most bytes of a text's nodes and statements, and of the model's blocks.
const NODE_BYTES: usize = 4800;

const STATEMENT_BYTES: usize = 2400;

const MODEL_BYTES: usize = 10752;

const TEXT_ROOM: usize = 65536;

const RECORDS_ROOM: usize = 9184;

// The rooms that the program reads its files into: one byte more than the longest text, and than the most records.
pub fn text_room() -> [u8; TEXT_ROOM]
    ensures { result ≡ replicate text_room 0 }
{
    [0; TEXT_ROOM]
}

pub fn records_room() -> [u8; RECORDS_ROOM]
    ensures { result ≡ replicate records_room 0 }
{
    [0; RECORDS_ROOM]
}

// The room for the model.
pub fn model_room() -> [u8; MODEL_BYTES]
    ensures { result ≡ replicate model_room 0 }
{
    [0; MODEL_BYTES]
}

// A text that is taken: how many nodes and statements it makes, and how many blocks the model has.
#[derive(Clone, Copy)]
pub struct Report {
    pub nodes: usize,
    pub statements: usize,
    pub blocks: usize,
}

// Judges the names of a text that makes so many nodes and statements, and the records that are given with it.
fn check_given(text: &[u8], given: &[u8], nodes: usize, statements: usize) -> Result<(), Refusal>
    ensures { (p : Statement) → nodes ≡ length (made_nodes p) → statements ≡ length (made_statements p) → told result ≡ first_failing (given_rules text.now given.now p) }
{
    let signals = byte_or_zero(given, 0);
    let variables = byte_or_zero(given, 1);
    if !names_ok(text, signals, variables) {
        return Err(Refusal::UnknownName);
    }
    let t = Totals {
        signals: signals,
        variables: variables,
        processes: 1,
        drivers: byte_or_zero(given, 2),
        nodes: nodes,
        statements: statements,
        rows: 0,
    };
    if whole_ok(given) & totals_ok(t) {
        return Ok(());
    }
    Err(Refusal::Counts)
}

// Writes the model's blocks, and answers how many there are.
fn put_model(given: &[u8], nodes: &[u8], statements: &[u8], out: &mut [u8]) -> usize
    requires given_fits { GivenFits given.now }
    requires nodes_len_bound { (length nodes.now ≤ 4800) × (length statements.now ≤ 2400) × (length out.old ≡ model_room) }
    ensures { (p : Statement) → nodes.now ≡ node_bytes (made_nodes p) → statements.now ≡ statement_bytes (made_statements p) → PackedIn (parts_from given.now p) out.old out.new result }
{
    let signals = 3 + 12 * byte_or_zero(given, 0);
    let variables = signals + 12 * byte_or_zero(given, 1);
    let drivers = variables + 12 * byte_or_zero(given, 2);
    let mut process = [0u8; 12];
    put_record(&mut process, 0, 0, statements.len() / 12, 0, 0, 0);
    pack(
        &given[3..signals],
        &given[signals..variables],
        &process,
        &given[variables..drivers],
        nodes,
        statements,
        out,
    )
}

// Writes bytes from the front of a buffer on, as far as it reaches.
fn store(bytes: &[u8], out: &mut [u8])
    ensures { out.new ≡ sets out.old 0 bytes.now }
{
    // Stays: a loop. With `copy_from_slice` the archive for C asks for memcpy, which it needs nowhere else.
    for i in 0..bytes.len() {
        if i < out.len() {
            out[i] = bytes[i];
        }
    }
}

// Makes a text and its given records into a model, whose blocks are in the buffer as far as it reaches; or it is refused, and nothing is written.
pub fn make(text: &[u8], given: &[u8], model: &mut [u8]) -> Result<Report, Refusal>
    ensures { Taken text.now given.now (told result) (nodes_taken result) (statements_taken result) (blocks_taken result) model.old model.new }
{
    let mut nodes = [0u8; NODE_BYTES];
    let mut statements = [0u8; STATEMENT_BYTES];
    let r = read(text, &mut nodes, &mut statements)?;
    check_given(text, given, r.nodes, r.statements)?;
    let mut out = [0u8; MODEL_BYTES];
    let n = 12 * r.nodes;
    let s = 12 * r.statements;
    let blocks = put_model(given, &nodes[..n], &statements[..s], &mut out);
    let end = 512 * blocks;
    judge(&out[..end])?;
    store(&out[..end], model);
    Ok(Report {
        nodes: r.nodes,
        statements: r.statements,
        blocks: blocks,
    })
}
