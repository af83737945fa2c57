// Which zero dot products and squared lengths start from (document 02, d): what it decides, without code.
//
// specs/SumStart.antt states it: of the orthonormaliser's answer the sign of a zero that is cleared, and nothing of a run.
// proofs/Plain.antt has the laws of floats, proofs/Runs.antt the simulation that carries them through a run.

#![tactic(auto)]
