// The worked examples of the chain and vectors worked by hand, each a theorem about the definitions.
#![tactic(auto)]

ghost use Rattle.examples.specs.Worked.{WorkedExamples};
ghost use Rattle.examples.specs.Vectors.{Groups, Frames, Headers, Calls};

pub fn worked_examples_stand()
    ensures { WorkedExamples }
{}

// The definitions give what the rules give by hand: line codes, frames, headers, and the refusals of the receiver's calls.
pub fn definitions_compute_the_vectors()
    ensures groups { Groups }
    ensures frames { Frames }
    ensures headers { Headers }
    ensures calls { Calls }
{}
