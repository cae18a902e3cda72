#![tactic(auto)]
// Rehearses the plan in the file that its argument names, or at standard input.
use console::Streams;

fn main(rt: HostRuntime) {
    let mut streams = Streams {
        output: rt.stdout(),
        errors: rt.stderr(),
    };
    console::run(&rt, &mut streams);
}
