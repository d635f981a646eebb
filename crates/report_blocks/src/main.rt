// `report` on an input that ends in a newline and has more than 65,536 characters of answers.
#![tactic(auto)]

fn main(rt: HostRuntime) {
    reporter::run(&rt);
}
