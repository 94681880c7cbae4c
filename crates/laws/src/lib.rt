// Laws of the definitions in `rules`, in proofs/, a file for each file of definitions. There is no code here: an edit of a law re-proves
// only what cites it, and an edit of a definition is first held against the examples.
#![tactic(auto)]
