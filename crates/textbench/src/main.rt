// Reads the files `text` and `records`, and prints 0 or the number of the refusal; with 0 it has written the model's blocks into the file
// `model`.
#![tactic(auto)]

use files::{give_file, print_bytes, take_file};
use text::put_refusal;
use text_model::{make, model_room, records_room, text_room};

fn main(rt: HostRuntime) {
    let mut text = text_room();
    let Some(text_length) = take_file(&rt, b"text", &mut text) else {
        return;
    };
    let mut records = records_room();
    let Some(records_length) = take_file(&rt, b"records", &mut records) else {
        return;
    };
    let mut model = model_room();
    let number = match make(&text[..text_length], &records[..records_length], &mut model) {
        Ok(made) => {
            let n = 512 * made.blocks;
            if !give_file(&rt, b"model", &model[..n]) {
                return;
            }
            0
        }
        Err(refusal) => refusal.number(),
    };
    let mut line = [0u8; 128];
    let n = put_refusal(number, &mut line);
    print_bytes(&rt, &line[..n]);
}
