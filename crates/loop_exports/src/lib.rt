// The check for loops without delay under a plain name, for programs in other languages. A library of its own, as dump_exports is.
#![tactic(auto)]

ghost use Rattle.std.specs.Prelude.{◌≡◌, [], ◌∷◌, ◌++◌, length, get_or};
ghost use Rattle.base.specs.Below.{list_below};
ghost use Rattle.base.specs.Cases.{◌∣◌, ◌⇒◌};
ghost use Rattle.loop_check.specs.Check.{check_of};
ghost use Rattle.loop_exports.specs.Words.{words_of};

use loop_check::check;

// Writes a chain's entries, how many of them are the chain, and whether every wait is later.
fn put_words(entries: &[usize; 16], len: usize, later: bool, out: &mut [u64])
    requires { length out.old ≡ 18 }
    ensures { out.new ≡ list_below (λ i. get_or entries.now i 0) 16 ++ (len ∷ (later ⇒ 1 ∣ 0) ∷ []) }
{
    for i in 0..16 {
        out[i] = entries[i] as u64;
    }
    out[16] = len as u64;
    out[17] = u64::from(later);
}

// Checks a model: its number; the first 16 words are the chain's processes (0 behind the last), then how many they are, then 1 where
// every wait has no c or a constant c above 0, else 0.
#[unsafe(no_mangle)]
pub extern "C" fn gontrafiby_loop(model: &[u8], out: &mut [u64; 18]) -> usize
    ensures value { result ≡ (check_of model.now).number }
    ensures out_after { out.new ≡ words_of (check_of model.now) }
{
    match check(model) {
        Err(refusal) => {
            put_words(&[0; 16], 0, false, out);
            refusal.number()
        }
        Ok(checked) => {
            match checked.chain {
                Some(chain) => put_words(&chain.at, chain.len, checked.later, out),
                None => put_words(&[0; 16], 0, checked.later, out),
            }
            0
        }
    }
}
