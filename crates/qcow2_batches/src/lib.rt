// What planning a call into a batch answers. The definitions are in specs/, the laws in proofs/: no code is here.
#![tactic(auto)]

// Where the call is not refused: the batch must be stored before it, or how many rows the batch holds with it.
// Not an Option: `Ends` tells the caller to store the batch and plan the call again, which None would not say.
#[derive(Clone, Copy)]
pub enum Planned {
    Ends,
    Rows(usize),
}
