// Replays a script: from standard input, or from the file that its one argument names.
#![tactic(auto)]

fn main(rt: HostRuntime) {
    replay_io::replay_asked(&rt);
}
