// Reads a script of calls from standard input, plays it on a fresh module and prints each answer.
#![tactic(auto)]

fn main(rt: HostRuntime) {
    player::play_input(&rt);
}
