// The text that the program prints of a check: a line with the chain's processes, `none`, or the number of a refused model.
#![tactic(auto)]

ghost use Rattle.std.specs.Prelude.{◌≡◌, [], ◌∷◌, ◌++◌, ◌+◌, ◌*◌, ◌≤◌, length, get_or, take, replicate};
ghost use Rattle.base.specs.Below.{join_below};
ghost use Rattle.numerals.specs.Numerals.{decimal_of, space, line_feed};
ghost use Rattle.numerals.specs.Puts.{Puts};
ghost use Rattle.text.specs.Text.{Prints};
ghost use Rattle.loop_text.specs.LoopText.{chain_word, none_line, process_most, loop_room, loop_text, ModelRoomSuffices};

use loop_check::check;
use numerals::put::{put, put_byte, put_decimal};
use text::put_refusal;

// How many bytes the program has room for in its text.
const LOOP_ROOM: usize = 512;

// The processes of a chain, a space before each.
fn put_processes(chain: &[usize], out: &mut [u8], at: usize) -> usize
    requires chain_len { length chain.now ≤ 16 }
    requires at_le_loop_room { at ≤ loop_room }
    ensures upper_bound { result ≤ at + length chain.now * process_most }
    ensures puts { Puts (join_below (λ i. space ∷ decimal_of (get_or chain.now i 0)) (length chain.now)) out.old out.new at result }
{
    let mut end = at;
    for process in chain {
        let a = put_byte(b' ', out, end);
        end = put_decimal(*process as u64, out, a);
    }
    end
}

// The line of a chain; answers how many bytes it has.
fn put_chain(chain: &[usize], out: &mut [u8]) -> usize
    requires chain_len { length chain.now ≤ 16 }
    requires loop_room_in_bounds { loop_room ≤ length out.old }
    ensures upper_bound { result ≤ length out.new }
    ensures out_after { take result out.new ≡ chain_word ++ (join_below (λ i. space ∷ decimal_of (get_or chain.now i 0)) (length chain.now) ++ (line_feed ∷ [])) }
{
    let a = put(b"chain", out, 0);
    let b = put_processes(chain, out, a);
    put_byte(b'\n', out, b)
}

// The line of no chain; answers how many bytes it has.
fn put_none(out: &mut [u8]) -> usize
    requires { loop_room ≤ length out.old }
    ensures upper_bound { result ≤ length out.new }
    ensures out_after { take result out.new ≡ none_line }
{
    put(b"none\n", out, 0)
}

// The room for the text.
pub fn loop_room() -> [u8; LOOP_ROOM]
    ensures { result ≡ replicate loop_room 0 }
{
    [0; LOOP_ROOM]
}

// Checks a model, any bytes, writes the text that the program prints, and answers how many bytes it has.
pub fn print(model: &[u8], out: &mut [u8; LOOP_ROOM]) -> usize
    ensures prints { Prints (loop_text model.now) out.new result }
    ensures model_room_suffices { ModelRoomSuffices }
{
    match check(model) {
        Err(refusal) => put_refusal(refusal.number(), out),
        Ok(checked) => match checked.chain {
            Some(chain) => put_chain(&chain.at[..chain.len], out),
            None => put_none(out),
        },
    }
}
