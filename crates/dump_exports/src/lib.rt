// The dump of a run under a plain name, for programs in other languages. A library of its own, besides exports: where sessions and dumps
// stand in one, the list's loop has two callers, and copies more (bench/README.md).
#![tactic(auto)]

ghost use Rattle.std.specs.Prelude.{◌≡◌, set};
ghost use Rattle.dumps.specs.Dumps.{dumped_of};

// Writes the dump of a run: its number, with every byte of the buffer as the rules have it, and its length.
#[unsafe(no_mangle)]
pub extern "C" fn gontrafiby_dump(
    model: &[u8],
    orders: &[u8],
    out: &mut [u8],
    length: &mut [u64; 1],
) -> usize
    ensures value { result ≡ (dumped_of model.now orders.now out.old).number }
    ensures out_after { out.new ≡ (dumped_of model.now orders.now out.old).buffer }
    ensures length_after { length.new ≡ set length.old 0 (dumped_of model.now orders.now out.old).length }
{
    match dumps::dump(model, orders, out) {
        Ok(written) => {
            length[0] = written as u64;
            0
        }
        Err(refusal) => {
            length[0] = 0;
            refusal.number()
        }
    }
}
