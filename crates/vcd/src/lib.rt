// A value change dump: the lines of a run's rows. A row has 32 entries, the value of signal s at s.
#![tactic(auto)]

ghost use Rattle.std.specs.Prelude.{not, ◌≡◌, ◌+◌, ◌*◌, ◌≤◌, ◌<◌, length};
ghost use Rattle.base.specs.Below.{any_below, join_below, list_below};
ghost use Rattle.numerals.specs.Puts.{far, Puts};
ghost use Rattle.vcd.specs.Lines.{same_word, spaced, text_of};
ghost use Rattle.vcd.specs.ReadBack.{DumpsReadBack};
ghost use Rattle.vcd.specs.Vcd.{character_of, written_of, value_line, time_line, shown_lines, differs, declared, width_of, var_line, header_lines, row_lines, dump_text};
ghost use Rattle.vcd.specs.Writing.{value_most, time_most, row_most, var_most, header_most, row_with, shown_by, lines_by, rows_of};

use numerals::put::{put, put_bits, put_byte, put_decimal};

// The character of a logic value.
fn character(v: u32) -> u8
    ensures { result ≡ character_of v }
{
    match v {
        2 | 6 => 48,
        3 | 7 => 49,
        4 => 122,
        _ => 120,
    }
}

// Two values of a type are written differently.
fn differ(ty: usize, v: u32, w: u32) -> bool
    ensures { result ≡ not (same_word (written_of ty v) (written_of ty w)) }
{
    if ty == 0 {
        return v != w;
    }
    character(v) != character(w)
}

// The line of a value of signal n.
fn put_value(ty: usize, v: u32, n: usize, out: &mut [u8], at: usize) -> usize
    requires n_bound { n < 32 }
    requires value_most_bound { at + value_most ≤ far }
    ensures upper_bound { result ≤ at + value_most }
    ensures puts { Puts (spaced (value_line ty v n)) out.old out.new at result }
{
    let code = (33 + n) as u8;
    if ty != 0 {
        let text = [character(v), code, 10];
        return put(&text, out, at);
    }
    let a = put_byte(b'b', out, at);
    let b = put_bits(v, out, a);
    let rest = [32, code, 10];
    put(&rest, out, b)
}

// The line of a time.
fn put_time(t: u64, out: &mut [u8], at: usize) -> usize
    requires { at + time_most ≤ far }
    ensures upper_bound { result ≤ at + time_most }
    ensures puts { Puts (spaced (time_line t)) out.old out.new at result }
{
    let a = put_byte(b'#', out, at);
    let b = put_decimal(t, out, a);
    put_byte(b'\n', out, b)
}

// The lines of the signals whose written value differs from that of the row before, or of all.
fn put_shown(
    all: bool,
    types: &[usize],
    before: &[u32],
    row: &[u32],
    out: &mut [u8],
    at: usize,
) -> usize
    requires types_len { length types.now ≤ 32 }
    requires before_len { length before.now ≡ 32 }
    requires row_len { length row.now ≡ 32 }
    requires value_most_bound { at + 32 * value_most ≤ far }
    ensures upper_bound { result ≤ at + length types.now * value_most }
    ensures puts { Puts (text_of (shown_lines types.now (shown_by all types.now (row_with 0 (length types.now) before.now) (row_with 0 (length types.now) row.now)) (row_with 0 (length types.now) row.now))) out.old out.new at result }
{
    let mut end = at;
    for s in 0..types.len() {
        let ty = types[s];
        let v = row[s];
        if all | differ(ty, before[s], v) {
            end = put_value(ty, v, s, out, end);
        }
    }
    end
}

// Some signal's written value differs from that of the row before.
fn any_differ(types: &[usize], before: &[u32], row: &[u32]) -> bool
    requires types_len { length types.now ≤ 32 }
    requires before_len { length before.now ≡ 32 }
    requires row_len { length row.now ≡ 32 }
    ensures { result ≡ any_below (differs types.now (row_with 0 (length types.now) before.now) (row_with 0 (length types.now) row.now)) (length types.now) }
{
    (0..types.len()).any(|s| differ(types[s], before[s], row[s]))
}

// The lines of a row: of the first all signals, of a later one those that differ, and nothing where none does.
fn put_row(
    first: bool,
    types: &[usize],
    before: &[u32],
    row: &[u32],
    time: u64,
    out: &mut [u8],
    at: usize,
) -> usize
    requires types_len { length types.now ≤ 32 }
    requires before_len { length before.now ≡ 32 }
    requires row_len { length row.now ≡ 32 }
    requires row_most_bound { at + row_most ≤ far }
    ensures upper_bound { result ≤ at + row_most }
    ensures puts { Puts (text_of (lines_by first types.now (row_with 0 (length types.now) before.now) (row_with time (length types.now) row.now))) out.old out.new at result }
{
    if first | any_differ(types, before, row) {
        let b = put_time(time, out, at);
        return put_shown(first, types, before, row, out, b);
    }
    at
}

// The lines of all rows.
fn put_rows(types: &[usize], times: &[u64], values: &[u32], out: &mut [u8], at: usize) -> usize
    requires types_len { length types.now ≤ 32 }
    requires times_len { length times.now ≤ 65536 }
    requires values_len { 32 * length times.now ≤ length values.now }
    requires at_le_header_most { at ≤ header_most }
    ensures upper_bound { result ≤ at + length times.now * row_most }
    ensures puts { Puts (text_of (join_below (row_lines types.now (rows_of (length types.now) times.now values.now (length times.now))) (length times.now))) out.old out.new at result }
{
    let mut end = at;
    for k in 0..times.len() {
        let last = 32 * k.saturating_sub(1);
        let from = 32 * k;
        end = put_row(
            k == 0,
            types,
            &values[last..last + 32],
            &values[from..from + 32],
            times[k],
            out,
            end,
        );
    }
    end
}

// The line that declares signal n.
fn put_var(ty: usize, n: usize, out: &mut [u8], at: usize) -> usize
    requires n_bound { n < 32 }
    requires var_most_bound { at + var_most ≤ far }
    ensures upper_bound { result ≤ at + var_most }
    ensures puts { Puts (spaced (declared ty n)) out.old out.new at result }
{
    let a = put(b"$var wire ", out, at);
    let b = put_decimal(width(ty), out, a);
    let code = [32, (33 + n) as u8, 32, 115];
    let c = put(&code, out, b);
    let d = put_decimal(n as u64, out, c);
    put(b" $end\n", out, d)
}

// How many bits a value of the type has.
fn width(ty: usize) -> u64
    ensures { result ≡ width_of ty }
{
    if ty == 0 { 32 } else { 1 }
}

// The lines that declare the signals.
fn put_vars(types: &[usize], out: &mut [u8], at: usize) -> usize
    requires types_len { length types.now ≤ 32 }
    requires at_bound { at ≤ 46 }
    ensures upper_bound { result ≤ at + length types.now * var_most }
    ensures puts { Puts (text_of (list_below (var_line types.now) (length types.now))) out.old out.new at result }
{
    let mut end = at;
    for s in 0..types.len() {
        end = put_var(types[s], s, out, end);
    }
    end
}

// The header.
fn put_header(types: &[usize], out: &mut [u8]) -> usize
    requires { length types.now ≤ 32 }
    ensures upper_bound { result ≤ header_most }
    ensures puts { Puts (text_of (header_lines types.now)) out.old out.new 0 result }
{
    let a = put(b"$timescale 1 ns $end\n$scope module model $end\n", out, 0);
    let b = put_vars(types, out, a);
    put(b"$upscope $end\n$enddefinitions $end\n", out, b)
}

// The dump of rows of signals of those types: row k has the time k, and the values from 32 * k on. It is put from the front of the buffer on; answers how many bytes it has. Where the buffer does not hold
// them all, they are only counted.
pub fn put_dump(types: &[usize], times: &[u64], values: &[u32], out: &mut [u8]) -> usize
    requires types_len { length types.now ≤ 32 }
    requires times_len { length times.now ≤ 65536 }
    requires values_len { 32 * length times.now ≤ length values.now }
    ensures upper_bound { result ≤ header_most + length times.now * row_most }
    ensures puts { Puts (dump_text types.now (rows_of (length types.now) times.now values.now (length times.now))) out.old out.new 0 result }
    ensures dumps_read_back { DumpsReadBack }
{
    let a = put_header(types, out);
    put_rows(types, times, values, out, a)
}
