// Laws of every run, of every machine: what is played is any list of calls, each getting what the last one left (`runs`, tx_list/specs/Stored), and
// a call leaves what `called` says (specs/Calls).
ghost use Rattle.bounds.specs.declared.Limits.{Limits as Bounds};
ghost use Rattle.tx_list.specs.Stored.{Demand3Kept};
ghost use Rattle.tx_list.specs.LiveKept.{LiveKept};
ghost use Rattle.helm.specs.Stored.{FitLimits, kind_of};
ghost use Rattle.helm.specs.Calls.{store_of};

/// From a begin or a restart that is not refused, after any calls: the commands written, the record and the known list are as the answers
/// of the gateway make them, at most 11 more commands than PGNs wanted are sent, and no call that follows is refused with 16.
pub fn demand_3()
    ensures { (l : Bounds) → FitLimits l → Demand3Kept (kind_of l) (store_of l) }
{}

/// With a gateway that helps, the start-up ends well.
pub fn start_up()
    ensures { (l : Bounds) → FitLimits l → LiveKept (kind_of l) (store_of l) }
{}
