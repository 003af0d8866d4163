// Turns of calls on a table, by value.
#![tactic(auto)]

fn main() {
    bench_turns::run(false);
}
