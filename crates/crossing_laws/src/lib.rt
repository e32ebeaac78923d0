//! What of tables and plans may cross threads: tables may be sent and shared, and operators may be shared.
//!
//! The lemmas are for the calls that start workers, which ask for it of what they send and share.
#![tactic(auto)]
