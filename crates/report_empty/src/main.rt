// `report` on an empty input: it writes nothing.
#![tactic(auto)]

fn main(rt: HostRuntime) {
    reporter::run(&rt);
}
