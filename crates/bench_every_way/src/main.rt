// Turns of calls on a table, by value, in place and over what is lent of it: each line names its way.
#![tactic(auto)]

fn main() {
    bench_turns::run_named();
}
