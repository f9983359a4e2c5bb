// Laws for the functions whose proofs walk their code by hand: laws alone.
#![tactic(auto)]
