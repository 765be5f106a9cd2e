// Which process of a model leads to which: by the signals that it assigns without delay and those that it waits on.
#![tactic(auto)]

ghost use Rattle.std.specs.Prelude.{◌≡◌, ◌<◌, length};
ghost use Rattle.blocks.specs.Records.{statement_at};
ghost use Rattle.blocks.specs.Lent.{model_in};
ghost use Rattle.model.specs.Facts.{Facts};
ghost use Rattle.leads.specs.Leads.{constant_above0, wait_later, waits_later};
ghost use Rattle.leads.specs.Relation.{SeenWith, SidesOf, RelationOf};

use blocks::index::Records;
use fields::ABSENT;
use sets::{join, with};

// Whether node n is a constant above 0.
fn constant_above_0(records: &Records, n: usize) -> bool
    requires n_in_bounds { n < length (model_in records.now).nodes }
    ensures { result ≡ constant_above0 (model_in records.now) n }
{
    let d = records.node(n);
    (d.kind == 1) & ((0 < d.k) & (d.k < 2147483648))
}

// What a process assigns without delay and what it waits on, as sets of signals.
#[derive(Clone, Copy)]
struct Sides {
    assigned: u32,
    waited: u32,
}

// The sets, with what statement n assigns without delay or waits on.
fn with_statement(records: &Records, n: usize, sides: Sides) -> Sides
    requires facts { Facts (model_in records.now) }
    requires n_in_bounds { n < length (model_in records.now).statements }
    ensures { SeenWith (model_in records.now) (statement_at (model_in records.now) n) sides result }
{
    let s = records.statement(n);
    if ((s.kind == 2) | (s.kind == 7)) | (s.kind == 6) {
        let later = constant_above_0(records, s.c);
        return Sides {
            assigned: with(sides.assigned, s.a, !later),
            waited: sides.waited,
        };
    }
    if s.kind == 5 {
        return Sides {
            assigned: sides.assigned,
            waited: join(sides.waited, s.set),
        };
    }
    sides
}

// What process p assigns without delay and what it waits on.
fn sides_of(records: &Records, p: usize) -> Sides
    requires facts { Facts (model_in records.now) }
    requires p_in_bounds { p < length (model_in records.now).processes }
    ensures { SidesOf (model_in records.now) p result }
{
    let d = records.process(p);
    let mut sides = Sides {
        assigned: 0,
        waited: 0,
    };
    for i in 0..d.count {
        sides = with_statement(records, d.first + i, sides);
    }
    sides
}

// A row of bits for each process: bit q of row p says that process p leads to process q.
pub fn rows(records: &Records) -> [u32; 16]
    requires facts { Facts (model_in records.now) }
    ensures { RelationOf (model_in records.now) result }
{
    // Stays: an array of `Sides` would be taken apart again for `chains::relation`, which takes sets of either kind, and knows no process.
    let mut assigns: [u32; 16] = [0; 16];
    let mut waits: [u32; 16] = [0; 16];
    for p in 0..records.totals.processes {
        let sides = sides_of(records, p);
        assigns[p] = sides.assigned;
        waits[p] = sides.waited;
    }
    chains::relation(&assigns, &waits, records.totals.processes)
}

// Whether statement n, where it is a wait, has no c or a constant c above 0.
fn wait_later(records: &Records, n: usize) -> bool
    requires facts { Facts (model_in records.now) }
    requires n_in_bounds { n < length (model_in records.now).statements }
    ensures { result ≡ wait_later (model_in records.now) (statement_at (model_in records.now) n) }
{
    let s = records.statement(n);
    if s.kind != 5 {
        return true;
    }
    if s.c == ABSENT {
        return true;
    }
    constant_above_0(records, s.c)
}

// Whether every wait has no c or a constant c above 0.
pub fn waits_later(records: &Records) -> bool
    requires facts { Facts (model_in records.now) }
    ensures { result ≡ waits_later (model_in records.now) }
{
    (0..records.totals.statements).all(|n| wait_later(records, n))
}
