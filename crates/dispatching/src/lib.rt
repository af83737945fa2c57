// The calls of a dispatcher over lent memory (document 02, f): definitions and their theorems, without code.
//
// specs/Served.antt says what each call answers and leaves in memory, whatever that holds: the contracts of crate dispatch cite
// it. specs/Dispatched.antt states that, over every list of calls from an emptied dispatcher, the exchanges are those of crate
// turns, so that what is proved there holds of them: a run by turns is the run alone, names are the least free ones, no run
// waits for more than eight turns, and turns are windows.

#![tactic(auto)]
