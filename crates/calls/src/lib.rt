// No code: histories of calls of `open` and `advance`, of outcomes that their contracts allow. They are fixed by the
// replies, and are the journals that the account is about.
#![tactic(auto)]
