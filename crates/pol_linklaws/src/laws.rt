//! Laws of served links: each is a function without a body, whose clause is the law.
ghost use Rattle.pol_linklaws.specs.Laws.{FaultsHaveCauses, OneOutput};

/// Where no end of a link fails, no call of the passes was failed by a disk, and fewer than 2^40 bytes are taken, the
/// link ends by its input or for want of memory, and each message is answered: by the machine at its place, by that of
/// objects at its own, by a refused plan, by a full run, by a full journal, or for want of memory.
pub fn faults_have_causes()
    ensures { FaultsHaveCauses }
{}

/// What is given, the places, the ending and both histories after are a function of what was seen before and of the
/// bytes, moments and words that come, where no end and no disk fails, memory is left, and nobody else enters anything.
/// What was seen before are the first states, where the journals ended then, and the histories.
pub fn one_output()
    ensures { OneOutput }
{}
