// Heaps that cheat, as statements and proofs alone: what each does (specs/Refusing, Settling, Answering) and which fact of the demands it
// breaks (specs/Refuted).
#![tactic(auto)]
