// Values worked out by hand, which the definitions give.
#![tactic(auto)]

ghost use Rattle.leaves.specs.Worked.{WorkedArc, WorkedCone, WorkedRing};
ghost use Rattle.plane.specs.Promises.{Worked};
ghost use Rattle.table.specs.Paving.{Paved};

// A call that does nothing, and whose contract is the table: what rings, cones and arcs keep and shed of some pieces;
// a gathering of boxes; and the whole dial, paved in one step by three bearings of which one may be wrong.
pub fn worked_values()
    ensures ring { WorkedRing }
    ensures cone { WorkedCone }
    ensures arc { WorkedArc }
    ensures boxes { Worked }
    ensures paved { Paved }
{}
