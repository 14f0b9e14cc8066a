// The theorems that decoding rests on: the survivors of the trellis trace back the nearest message, and two messages are far apart.
#![tactic(auto)]

ghost use Rattle.costs.specs.Kind.{most_charges};
ghost use Rattle.nearest.specs.Distance.{DistanceTen};
ghost use Rattle.nearest.specs.Messages.{MessagesArePsdus};
ghost use Rattle.nearest.specs.Nearest.{NearestIsOne};
ghost use Rattle.nearest.specs.Path.{NearestByLaws, TracesNearest, TracesNearestPsdu, ByWhatCame};

use costs::CostKind;

// What the survivors trace back from state zero is the nearest message: that rests on the laws of the costs alone.
pub fn nearest_by_the_laws<O, C>()
    ensures { NearestByLaws O C }
{}

// In every kind of cost of the receiver: what is traced is the nearest message, and its octets are the nearest PSDU.
pub fn nearest_path<K: CostKind>()
    ensures message { TracesNearest most_charges K.CostKind.kind }
    ensures psdu { TracesNearestPsdu K.CostKind.kind }
{}

// No two PSDUs are the nearest, so that being nearest names the PSDU and its cost.
pub fn the_nearest_is_one<O, C>()
    ensures { NearestIsOne O C }
{}

// The costs of the states and their survivors go by the code bits that have come, not by later ones.
pub fn costs_go_by_what_came<K: CostKind>()
    ensures { ByWhatCame K.CostKind.kind }
{}

// Two messages that differ, and that end in six zeros, have code bits that differ in ten places or more.
pub fn distance_ten()
    ensures { DistanceTen }
{}

// Every message of as many bits as a PSDU has is the message of a PSDU.
pub fn messages_are_psdus()
    ensures { MessagesArePsdus }
{}
