// What Bench promises of dossiers as bytes: demand 3, arrival order, first hours, third-party payments, two owners, the charging week,
// the declared readings, the marked cases. The claims are in specs/, their proofs in proofs/.
#![tactic(auto)]
