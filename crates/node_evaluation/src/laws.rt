//! What a choice is good for. The law is the contract of a function without a body.
ghost use Rattle.node_evaluation.specs.Choices.{ChoicesDecide};

/// A node may be branched by each choice, there is something to decide by it, and it has two or
/// three options as the choice says.
pub fn choices_decide()
    ensures { ChoicesDecide }
{}
