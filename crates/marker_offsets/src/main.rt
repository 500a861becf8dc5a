// The marker on calls with offsets on both sides of zero and times at the bound, held to a print written by hand.
#![tactic(auto)]

use marker_session::session::session;

fn main(rt: HostRuntime) {
    session(&rt);
}
