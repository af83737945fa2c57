// Several circuits on one worker (document 02, f): definitions and theorems, without code.
//
// specs/Turn.antt says how a run is handed in, and what a turn of one window makes of it. specs/Dispatcher.antt has the
// dispatcher, a queue of unfinished runs, and what it answers to each call. specs/Alone.antt states, over every list of calls
// from an empty dispatcher, that a run has the answer and the slices that it has alone, and demand 3 of such runs;
// specs/Queue.antt that names are the least free ones, that no run waits for more than eight turns, and that turns are windows.
// Crate dispatching has the same calls over lent memory, which the contracts of crate dispatch cite.

#![tactic(auto)]
