// The kernel under plain names, for programs in other languages: the operators and resolution of the nine values, the judging of a model,
// and a whole session with its number, every byte of the answer buffer and the words of its end configuration. Each contract states the
// whole result by the definitions of the function that it calls.
#![tactic(auto)]

pub mod dump;

ghost use Rattle.std.specs.Prelude.{◌≡◌, length};
ghost use Rattle.base.specs.Below.{list_below};
ghost use Rattle.values.specs.Resolve.{resolution_of};
ghost use Rattle.values.specs.Operators.{not_of, and_of, or_of, xor_of};
ghost use Rattle.model.specs.Rules.{refusal_of};
ghost use Rattle.session.specs.Sessions.{session_of};
ghost use Rattle.exports.specs.Dump.{word_of};

use crate::dump::dump;

#[unsafe(no_mangle)]
pub extern "C" fn gontrafiby_resolve(values: &[u32]) -> u32
    ensures { result ≡ resolution_of values.now }
{
    values::resolve(values)
}

#[unsafe(no_mangle)]
pub extern "C" fn gontrafiby_not(x: u32) -> u32
    ensures { result ≡ not_of x }
{
    values::not(x)
}

#[unsafe(no_mangle)]
pub extern "C" fn gontrafiby_and(x: u32, y: u32) -> u32
    ensures { result ≡ and_of x y }
{
    values::and(x, y)
}

#[unsafe(no_mangle)]
pub extern "C" fn gontrafiby_or(x: u32, y: u32) -> u32
    ensures { result ≡ or_of x y }
{
    values::or(x, y)
}

#[unsafe(no_mangle)]
pub extern "C" fn gontrafiby_xor(x: u32, y: u32) -> u32
    ensures { result ≡ xor_of x y }
{
    values::xor(x, y)
}

// The number of the first rule that the model breaks, or 0.
#[unsafe(no_mangle)]
pub extern "C" fn gontrafiby_judge(model: &[u8]) -> u32
    ensures { result ≡ refusal_of model.now }
{
    match model::load::judge(model) {
        Ok(()) => 0,
        Err(refusal) => refusal.number() as u32,
    }
}

// Plays a session: its number, with every byte of the answer buffer as the rules have it, and the words of its end configuration.
#[unsafe(no_mangle)]
pub extern "C" fn gontrafiby_session(
    model: &[u8],
    orders: &[u8],
    answers: &mut [u8],
    words: &mut [u64],
) -> usize
    ensures value { result ≡ (session_of model.now orders.now answers.old).number }
    ensures answers_after { answers.new ≡ (session_of model.now orders.now answers.old).buffer }
    ensures words_after { words.new ≡ list_below (word_of (session_of model.now orders.now answers.old).end) (length words.old) }
{
    let r = session::session(model, orders, answers);
    dump(r.config, words);
    r.number
}
