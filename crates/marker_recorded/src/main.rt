// The marker on the recorded calls of session1, held to their recorded print.
#![tactic(auto)]

use marker_session::session::session;

fn main(rt: HostRuntime) {
    session(&rt);
}
