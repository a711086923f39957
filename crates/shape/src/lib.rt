// No code: what any device of our shape is stands in `specs/`, and the argument that is made once over all of them in `proofs/`.

#![tactic(auto)]
