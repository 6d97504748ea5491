#![tactic(auto)]

// docs/RULES.md as definitions: what every other crate is held to. There is no code here: the definitions
// stand in specs/, the laws about them in proofs/. Nothing is assumed.
