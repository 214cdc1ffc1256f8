// What a ready box does, and the promise of a pool of boxes, as definitions with their proof. There is no code here:
// the calls are in `ready`, and `ReadyBox::join` has the promise in its contract.
#![tactic(auto)]
