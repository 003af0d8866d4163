// Turns of calls on one table, lent to every call.
#![tactic(auto)]

fn main() {
    bench_turns::run(true);
}
