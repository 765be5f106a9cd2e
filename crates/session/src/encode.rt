// One answer of 16 bytes, written into its own part of the answer buffer.
ghost use Rattle.std.specs.Prelude.{◌≡◌, length};
ghost use Rattle.session.specs.Lists.{answer_bytes};

use cycle::orders::Answer;

// Writes an answer into its 16 bytes.
pub(crate) fn put_answer(out: &mut [u8], answer: Answer, time: u64)
    requires { length out.old ≡ 16 }
    ensures { out.new ≡ answer_bytes answer.refusal answer.byte answer.picks answer.value time }
{
    let [p0, p1] = ((answer.picks % 65536) as u16).to_le_bytes();
    let [v0, v1, v2, v3] = answer.value.to_le_bytes();
    let [t0, t1, t2, t3, t4, t5, t6, t7] = time.to_le_bytes();
    out.copy_from_slice(&[
        (answer.refusal % 256) as u8,
        (answer.byte % 256) as u8,
        p0,
        p1,
        v0,
        v1,
        v2,
        v3,
        t0,
        t1,
        t2,
        t3,
        t4,
        t5,
        t6,
        t7,
    ]);
}
