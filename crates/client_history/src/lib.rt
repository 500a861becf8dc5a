// What holds of a client run after any events, over its requests and the replies given to them.
#![tactic(auto)]
