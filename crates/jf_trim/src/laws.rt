// Laws of what trimming keeps, for proofs of code that uses it. These functions do nothing when they run.
ghost use Rattle.jf_trim.specs.Laws.{KeptStoresStopWell};

/// If a store is kept, and a crash before the calls would leave its versions, then so does one at any moment of them, and
/// one after them.
pub fn kept_stores_stop_well()
    ensures { KeptStoresStopWell }
{}
