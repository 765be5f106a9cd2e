// The reader of process bodies and the maker of models under plain names, for programs in other languages. A library of its own, as dump_exports is.
#![tactic(auto)]

ghost use Rattle.std.specs.Prelude.{get_or};
ghost use Rattle.reader.specs.Reading.{Read};
ghost use Rattle.text_model.specs.Texts.{Taken};

use reader::read;
use text_model::make;

// Reads a text: 0 or 26; its nodes and statements are in the buffers, as far as these reach, and how many they are in the two counts.
#[unsafe(no_mangle)]
pub extern "C" fn gontrafiby_read(
    text: &[u8],
    nodes: &mut [u8],
    statements: &mut [u8],
    counts: &mut [u64; 2],
) -> usize
    ensures { Read text.now result (get_or counts.new 0 0) (get_or counts.new 1 0) nodes.old nodes.new statements.old statements.new }
{
    match read(text, nodes, statements) {
        Ok(made) => {
            *counts = [made.nodes as u64, made.statements as u64];
            0
        }
        Err(refusal) => {
            *counts = [0; 2];
            refusal.number()
        }
    }
}

// Makes a text and its given records into a model: 0 or the number of the refusal; the model's blocks are in the buffer, as far as it reaches, and
// how many nodes, statements and blocks there are in the three counts.
#[unsafe(no_mangle)]
pub extern "C" fn gontrafiby_text(
    text: &[u8],
    given: &[u8],
    model: &mut [u8],
    counts: &mut [u64; 3],
) -> usize
    ensures { Taken text.now given.now result (get_or counts.new 0 0) (get_or counts.new 1 0) (get_or counts.new 2 0) model.old model.new }
{
    match make(text, given, model) {
        Ok(made) => {
            *counts = [
                made.nodes as u64,
                made.statements as u64,
                made.blocks as u64,
            ];
            0
        }
        Err(refusal) => {
            *counts = [0; 3];
            refusal.number()
        }
    }
}
