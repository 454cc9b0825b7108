//! What the calls of a place that tell its next timer promise: the moments at which time alone changes more of a stream than its own moment, and when one
//! moment is before all of them. There is no code.
#![tactic(auto)]
