// The marker on the recorded calls of damaged2, held to their recorded print.
#![tactic(auto)]

use marker_session::session::session;

fn main(rt: HostRuntime) {
    session(&rt);
}
