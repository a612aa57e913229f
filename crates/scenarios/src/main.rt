// The rack on a script of calls for each rule: both ports and both formats, every refusal, permissions, resets, pulses, notices,
// thermostats, each request of 02 that has landed, and the text examples of the sources.
// A program of its own, since the gate runs one on one input.
#![tactic(auto)]

fn main(rt: HostRuntime) {
    player::play_input(&rt);
}
