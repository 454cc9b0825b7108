//! Tests of a lock whose turns go by tickets: two threads that count, two seats that meet, and two that become one.
#![tactic(auto)]

#[cfg(test)]
mod tests;
