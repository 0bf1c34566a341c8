// The definitions held against outside cases: data/request-10.txt and data/week.txt, whose answers come from a model that shares nothing with
// them. specs/Cases.antt has the cases as claims, proofs/Hold.antt proves each by computation. This layer has no code.
#![tactic(auto)]
