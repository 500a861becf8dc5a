// The marker: records from standard input, the marker's print on standard output.
#![tactic(auto)]

use marker_session::session::session;

fn main(rt: HostRuntime) {
    session(&rt);
}
