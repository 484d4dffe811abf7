// Agreement of all good parties: the statement in specs/, its proof in proofs/. There is no code here; the statement speaks of the
// definitions that the party's functions are proved to meet.

#![tactic(auto)]
