// The calls over a store of kept runs (document 02, c): definitions and their theorem, without code.
//
// specs/Calls.antt says what each call has to answer, told by the calls before it. specs/Served.antt says what a call answers
// and leaves in lent memory, whatever that holds: the contracts of crate keep cite it. specs/Agreement.antt states that, over
// every list of calls from an empty store, the second is the first.

#![tactic(auto)]
