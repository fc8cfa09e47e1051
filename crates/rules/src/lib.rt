// The rules of document 01 as definitions (specs/): book, rules, protocol, lives, worked cases. No code: what every promise cites.
// Promises nothing of a program; its laws say what the definitions mean. Rests on `model` for the records.

#![tactic(auto)]
