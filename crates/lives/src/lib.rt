// Runs of the code and demand 3: lives made of steps that meet the promises of the public functions over a lent runtime (specs/Runs, specs/Lent), and what
// a host is told there (specs/Told). No code of its own. Its laws carry what `rules` proves of every list of lives to every list of such runs; that the
// promises are those of the functions is proofs/Link. Rests on `runtime` for the promises.

#![tactic(auto)]
