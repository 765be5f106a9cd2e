// Reads the file `model`, and writes the chain of its loop without delay, `none`, or the number of a refused model.
#![tactic(auto)]

use files::{print_bytes, take_file};
use loop_text::{loop_room, print};
use text::model_room;

fn main(rt: HostRuntime) {
    let mut model = model_room();
    let Some(model_length) = take_file(&rt, b"model", &mut model) else {
        return;
    };
    let mut text = loop_room();
    let n = print(&model[..model_length], &mut text);
    print_bytes(&rt, &text[..n]);
}
