//! Laws about the requests of a run, whatever happens before and after them.

ghost use Rattle.run_control.specs.Runs.{CallChangesNoDoor, DrainedDoorsLetNobodyIn, EndAsksOnePlace, NextChangesNoDoor, NobodyComesInAfterAStop, WhoeverIsThereStays};

/// Where viewers aren't let in, a viewer that comes changes nothing.
pub fn drained_doors_let_nobody_in()
    ensures { DrainedDoorsLetNobodyIn }
{}

/// `end` asks the viewer of its place to leave, and changes nothing else: no other place, and not whether viewers are
/// let in.
pub fn end_asks_one_place()
    ensures { EndAsksOnePlace }
{}

/// `next` is asked of the hosts alone: who is there has its place as before, and who may come in may come in.
pub fn next_changes_no_door()
    ensures { NextChangesNoDoor }
{}

/// `call` brings one more newcomer, and no place: who is there has its place as before, and the viewer that was called
/// comes to a place like any other.
pub fn call_changes_no_door()
    ensures { CallChangesNoDoor }
{}

/// After a `stop`, whatever is asked and whoever comes and leaves then, each viewer that has a place is asked to leave,
/// and a place without a viewer never gets one again.
pub fn nobody_comes_in_after_a_stop()
    ensures { NobodyComesInAfterAStop }
{}

/// As long as nobody asks for `stop` or for `end` of a viewer's place, that viewer isn't asked to leave, whatever else
/// is asked and whoever comes and leaves.
pub fn whoever_is_there_stays()
    ensures { WhoeverIsThereStays }
{}
