// Moving a stored list of orders over, under a plain name, for programs in other languages. A library of its own, as dump_exports is.
#![tactic(auto)]

ghost use Rattle.std.specs.Prelude.{◌≡◌};
ghost use Rattle.moving.specs.Moving.{moved_of};

// Moves a list over: its number, with every byte of the buffer as the rules have it.
#[unsafe(no_mangle)]
pub extern "C" fn gontrafiby_move(model: &[u8], orders: &[u8], moved: &mut [u8]) -> usize
    ensures value { result ≡ (moved_of model.now orders.now moved.old).number }
    ensures moved_after { moved.new ≡ (moved_of model.now orders.now moved.old).buffer }
{
    match moving::move_over(model, orders, moved) {
        Ok(()) => 0,
        Err(refusal) => refusal.number(),
    }
}
