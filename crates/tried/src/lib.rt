// No code: examples of the definition, computed by the checker (proofs/). They stand in a crate of their own, above the definition, so that
// they are computed once, and not again with every edit of the parser that must be refused.
#![tactic(auto)]
