//! What a caller of the peers may rest on.
ghost use Rattle.bng_base.specs.Causes.{Rose};
ghost use Rattle.bng_peer.specs.Telling.{tells_nothing};
ghost use Rattle.bng_peer.specs.declared.plant.PeerPlant.{PeerPlant};

/// No call of the peers fails: from no moment to any other does their count of faults rise.
pub fn never_fail()
    ensures { (before after : PeerPlant) → ¬ (Rose (tells_nothing before).faults (tells_nothing after).faults) }
{}
