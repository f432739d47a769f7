// The display program of document 01. Beside it stand the hat book, its board, and what it must print.
#![tactic(auto)]

fn main(rt: HostRuntime) {
    display::show(rt);
}
