// No code: what any calls of the recorder amount to, down to the player's run over what they finish. It stands above both, so that
// neither needs the other.
#![tactic(auto)]
