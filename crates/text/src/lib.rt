// The text that the program prints of a session: a line for each answer, or the number of a refused session.
#![tactic(auto)]

ghost use Rattle.std.specs.Prelude.{◌≡◌, ◌+◌, ◌*◌, ◌/◌, ◌≤◌, ◌<◌, length, take, replicate};
ghost use Rattle.session.specs.Lists.{orders_of, time_in};
ghost use Rattle.session.specs.Sessions.{session_of};
ghost use Rattle.numerals.specs.Numerals.{decimal_of, space};
ghost use Rattle.numerals.specs.Puts.{far, Puts};
ghost use Rattle.text.specs.Text.{signed_of, ended, value_in, node_in, line_of, number_line_of, answers_in, lines_of, text_of, line_most, model_room, orders_room, text_room, RoomsSuffice, AnswerRoom, Prints};

use base::{byte, long, word};
use numerals::put::{put_byte, put_decimal};
use session::session;

// How many bytes the program has room for: of the model, of the orders and of the text.
const MODEL_ROOM: usize = 32769;

const ORDERS_ROOM: usize = 16385;

const TEXT_ROOM: usize = 217088;

// A number in base ten, and a character behind it.
fn put_number(n: u64, after: u8, out: &mut [u8], at: usize) -> usize
    requires { at + 20 ≤ far }
    ensures upper_bound { result ≤ at + 21 }
    ensures puts { Puts (ended (decimal_of n) after) out.old out.new at result }
{
    let end = put_decimal(n, out, at);
    put_byte(after, out, end)
}

// 32 bits as a signed number, and a space.
fn put_signed(v: u64, out: &mut [u8], at: usize) -> usize
    requires v_bound { v < 4294967296 }
    requires at_bound { at + 21 ≤ far }
    ensures upper_bound { result ≤ at + 22 }
    ensures puts { Puts (ended (signed_of v) space) out.old out.new at result }
{
    if v < 2147483648 {
        return put_number(v, b' ', out, at);
    }
    let digits = put_byte(b'-', out, at);
    put_number(4294967296 - v, b' ', out, digits)
}

// The time of an answer.
fn time_in(answer: &[u8]) -> u64
    requires { length answer.now ≡ 16 }
    ensures { result ≡ time_in answer.now }
{
    (long(answer, 8) + 4294967296 * long(answer, 12)) as u64
}

// Value and node of the answer to an order of that kind.
fn value_in(kind: usize, answer: &[u8]) -> u64
    requires { length answer.now ≡ 16 }
    ensures value { result ≡ value_in kind answer.now }
    ensures upper_bound { result < 4294967296 }
{
    if kind == 1 {
        return byte(answer, 4) as u64;
    }
    long(answer, 4) as u64
}

fn node_in(kind: usize, answer: &[u8]) -> u64
    requires { length answer.now ≡ 16 }
    ensures value { result ≡ node_in kind answer.now }
    ensures upper_bound { result < 65536 }
{
    if kind == 1 {
        return word(answer, 6) as u64;
    }
    0
}

// The line of the answer to an order of that kind.
fn put_line(kind: usize, answer: &[u8], out: &mut [u8], at: usize) -> usize
    requires answer_len { length answer.now ≡ 16 }
    requires at_le_text_room { at ≤ text_room }
    ensures upper_bound { result ≤ at + line_most }
    ensures puts { Puts (line_of kind answer.now) out.old out.new at result }
{
    let refusal = byte(answer, 0) as u64;
    let said = byte(answer, 1) as u64;
    let picks = word(answer, 2) as u64;
    let value = value_in(kind, answer);
    let node = node_in(kind, answer);
    let time = time_in(answer);
    let a = put_number(refusal, b' ', out, at);
    let b = put_number(said, b' ', out, a);
    let c = put_number(picks, b' ', out, b);
    let d = put_signed(value, out, c);
    let e = put_number(node, b' ', out, d);
    put_number(time, b'\n', out, e)
}

// The line of the answer to each order; answers how many bytes they have.
fn put_lines(orders: &[u8], answers: &[u8], out: &mut [u8]) -> usize
    requires answers_len { length answers.now ≡ 16 * (length orders.now / 4) }
    requires answers_len_bound { length answers.now ≤ 65536 }
    requires text_room_in_bounds { text_room ≤ length out.old }
    ensures upper_bound { result ≤ length out.new }
    ensures out_after { take result out.new ≡ lines_of (orders_of orders.now) (answers_in answers.now) }
{
    let mut at = 0;
    for i in 0..answers.len() / 16 {
        let kind = byte(orders, 4 * i);
        let from = 16 * i;
        at = put_line(kind, &answers[from..from + 16], out, at);
    }
    at
}

// The line of a refused session; answers how many bytes it has.
pub fn put_refusal(number: usize, out: &mut [u8]) -> usize
    requires { line_most ≤ length out.old }
    ensures upper_bound { result ≤ length out.new }
    ensures out_after { take result out.new ≡ number_line_of number }
{
    put_number(number as u64, b'\n', out, 0)
}

// Plays the session, and answers its number.
fn played(model: &[u8], orders: &[u8], answers: &mut [u8]) -> usize
    ensures value { result ≡ (session_of model.now orders.now answers.old).number }
    ensures answers_after { answers.new ≡ (session_of model.now orders.now answers.old).buffer }
{
    let ended = session(model, orders, answers);
    ended.number
}

// Plays the session, and writes its text: the line of each answer, or the number of a refused session.
fn put_text(model: &[u8], orders: &[u8], answers: &mut [u8], out: &mut [u8]) -> usize
    requires answer_room { AnswerRoom orders.now (length answers.old) }
    requires text_room_in_bounds { text_room ≤ length out.old }
    ensures upper_bound { result ≤ length out.new }
    ensures out_after { take result out.new ≡ text_of model.now orders.now }
{
    let number = played(model, orders, answers);
    if number != 0 {
        return put_refusal(number, out);
    }
    put_lines(orders, answers, out)
}

// How many bytes the answers have; none where the orders are more than a session takes.
fn answer_bytes(orders: &[u8]) -> usize
    ensures { AnswerRoom orders.now result }
{
    let n = orders.len();
    if n <= 16384 { 4 * n } else { 0 }
}

// The rooms for the two files and for the text.
pub fn model_room() -> [u8; MODEL_ROOM]
    ensures { result ≡ replicate model_room 0 }
{
    [0; MODEL_ROOM]
}

pub fn orders_room() -> [u8; ORDERS_ROOM]
    ensures { result ≡ replicate orders_room 0 }
{
    [0; ORDERS_ROOM]
}

pub fn text_room() -> [u8; TEXT_ROOM]
    ensures { result ≡ replicate text_room 0 }
{
    [0; TEXT_ROOM]
}

// Plays the session of a model and orders, any bytes, writes the text that the program prints, and answers how many bytes it has.
pub fn print(model: &[u8], orders: &[u8], out: &mut [u8; TEXT_ROOM]) -> usize
    ensures prints { Prints (text_of model.now orders.now) out.new result }
    ensures rooms_suffice { RoomsSuffice text_of }
{
    let mut answers = io::large_buffer();
    let n = answer_bytes(orders);
    put_text(model, orders, &mut answers[..n], out)
}
