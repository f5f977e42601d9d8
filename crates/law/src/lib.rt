// What the calls on a shelf do, and what stands of shelves whatever was called: definitions that the calls' contracts
// cite, and the law over whole runs, proved from these definitions alone. docs/PROOFS.md tells it in words.
#![tactic(auto)]

pub mod laws;
