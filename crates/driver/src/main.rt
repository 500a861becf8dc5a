// The driver: calls from standard input, a line for each and the closing tables on standard output.
#![tactic(auto)]

use driver_session::session::session;

fn main(rt: HostRuntime) {
    session(&rt);
}
