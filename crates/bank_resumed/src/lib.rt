// A host's calls to one bank's session, putting away and taking up among them: such a list leaves what its frames and
// files alone leave. Definitions and theorems; no code.
#![tactic(auto)]
