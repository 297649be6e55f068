//! The machine as definitions: its state, and what each step makes of it. No code stands here: what
//! runs is proved against these definitions above, and the laws speak of them alone.
#![tactic(auto)]
