// Benettin's estimate of the leading Lyapunov exponents (source: estimator.rs): the whole run.
//
// estimate.rt has the entry points. `estimate_spectrum_at` is the run that crate benettin defines: its answer and every float
// left in rows, exponents and final state equal specs/Outputs.antt there, for every input. Its contract is `Meets`, the
// definition of which specs/Refusals.antt there states demand 1 and specs/LeadingOutputs.antt demand 3. Crate course has the
// loops over windows, progress the run under way that they go by (begin, window), and totals its end. The state, the
// directions, their logarithms and squared lengths lie in arrays on the stack; nothing is allocated. Its arguments are the
// source's, and the outputs are lent one by one, as C lends them.
#![tactic(auto)]

pub mod estimate;
