// Reads the files `model` and `orders`, and writes the dump of their run, or the number of a refused one.
#![tactic(auto)]

use dumps::{dump_room, print};
use files::{print_bytes, take_file};
use text::{model_room, orders_room};

fn main(rt: HostRuntime) {
    let mut model = model_room();
    let Some(model_length) = take_file(&rt, b"model", &mut model) else {
        return;
    };
    let mut orders = orders_room();
    let Some(orders_length) = take_file(&rt, b"orders", &mut orders) else {
        return;
    };
    let mut text = dump_room();
    let n = print(&model[..model_length], &orders[..orders_length], &mut text);
    print_bytes(&rt, &text[..n]);
}
