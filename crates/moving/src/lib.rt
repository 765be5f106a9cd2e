// Stored lists of orders move over: each order 2, an advance until it was withdrawn, becomes the delta step or the time step that
// gives its old answer.
#![tactic(auto)]

ghost use Rattle.std.specs.Prelude.{◌≡◌, ◌*◌, ◌/◌, length};
ghost use Rattle.base.specs.Refusals.{told};
ghost use Rattle.cycle.specs.View.{Valid, view_of};
ghost use Rattle.expressions.specs.Lent.{model_of_program};
ghost use Rattle.session.specs.Lists.{order_of, orders_of, order_bytes};
ghost use Rattle.moving.specs.Moving.{moved_over, MovedAt, MoveIs, MovesOver};

use base::refusal::Refusal;
use cycle::config::Config;
use expressions::program::Program;
use model::load::load;
use session::orders_ok;
use session::play::play;

// The kind that an order was moved to, and the configuration that the order of before hands back.
#[derive(Drop)]
struct Moved {
    kind: u8,
    config: Config,
}

// Plays an order by the rules of before. An order 2 is a delta step, or a time step where nothing is due now; orders 6 and 7 were not
// known, and changed nothing.
fn move_order(c: Config, program: &Program, order: [u8; 4]) -> Moved
    requires { Valid (model_of_program program.now) c }
    ensures { MovedAt (model_of_program program.now) (order_of order) c result }
{
    let [kind, argument, low, high] = order;
    let mut answer = [0u8; 16];
    if kind == 2 {
        let delta = play(c, program, &[6, argument, low, high], &mut answer);
        if answer[0] == 22 {
            let time = play(delta, program, &[7, argument, low, high], &mut answer);
            return Moved {
                kind: 7,
                config: time,
            };
        }
        return Moved {
            kind: 6,
            config: delta,
        };
    }
    if (kind == 6) | (kind == 7) {
        return Moved {
            kind: kind,
            config: c,
        };
    }
    let next = play(c, program, &[kind, argument, low, high], &mut answer);
    Moved {
        kind: kind,
        config: next,
    }
}

// Moves the orders over, each into its own part of the buffer.
fn move_each(c: Config, program: &Program, orders: &[u8], moved: &mut [u8])
    requires valid { Valid (model_of_program program.now) c }
    requires moved_len { length moved.old ≡ 4 * (length orders.now / 4) }
    ensures { moved.new ≡ order_bytes (moved_over (model_of_program program.now) (orders_of orders.now) (view_of c)) }
{
    let mut at = c;
    for i in 0..orders.len() / 4 {
        let from = 4 * i;
        let kind = orders[from];
        let argument = orders[from + 1];
        let low = orders[from + 2];
        let high = orders[from + 3];
        let r = move_order(at, program, [kind, argument, low, high]);
        moved[from..from + 4].copy_from_slice(&[r.kind, argument, low, high]);
        at = r.config;
    }
}

// Moves a list of orders over. A refused one writes nothing.
pub fn move_over(model: &[u8], orders: &[u8], moved: &mut [u8]) -> Result<(), Refusal>
    ensures move_is { MoveIs model.now orders.now moved.old moved.new (told result) }
    ensures moves_over { MovesOver }
{
    let loaded = load(model)?;
    if !orders_ok(orders) {
        return Err(Refusal::OrdersLength);
    }
    if moved.len() != orders.len() {
        return Err(Refusal::AnswersLength);
    }
    let program = Program {
        records: loaded.records(model),
    };
    let first = Config::first(&program);
    move_each(first, &program, orders, moved);
    Ok(())
}
