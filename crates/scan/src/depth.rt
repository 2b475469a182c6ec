// The run of the indices that at least k of a list of stretches hold, found at the stretches' own ends.
ghost use Rattle.std.specs.Prelude.{◌≡◌, ℕ, ◌<◌, map};
ghost use Rattle.scan.specs.Depth.{covers, depth, deep, Below, Earliest, Latest};
ghost use Rattle.scan.specs.Live.{run};
ghost use Rattle.scan.specs.declared.stretch.Stretch.{Stretch as Stretches};

use crate::stretch::Stretch;

// One side of a list of members, each known by a number: the stretch that a member takes up there.
// It is a trait, and no closure: a public function that calls a closure has a `requires`, and here none has one.
pub trait Side {
    ghost extent: { Self → ℕ → Stretches };

    fn stretch(&self, member: u64) -> Stretch
        ensures { result ≡ extent self.now member };
}

// Whether a stretch holds an index.
pub fn covers_index(stretch: Stretch, index: u32) -> bool
    ensures { result ≡ covers stretch index }
{
    stretch.low <= index && index <= stretch.high
}

// How many members hold an index. The side and the members are two arguments here and below: they come apart at each
// caller, and a struct of both would be made for one call. A sum of ones and noughts, and no `count` of a `filter`: it has no
// branch for each member, and takes half the time.
pub fn depth_at<S: Side>(side: &S, members: &[u64], index: u32) -> usize
    ensures { result ≡ depth (map (S.Side.extent side.now) members.now) index }
{
    members
        .iter()
        .map(|&member| usize::from(covers_index(side.stretch(member), index)))
        .sum()
}

// The smallest beginning of a member that at least `least` members hold.
fn first_deep<S: Side>(side: &S, members: &[u64], least: usize) -> Option<u32>
    ensures { Earliest (deep least (map (S.Side.extent side.now) members.now)) (map (λ n. (S.Side.extent side.now n).low) members.now) result }
{
    members
        .iter()
        .map(|&member| side.stretch(member).low)
        .filter(|&edge| depth_at(side, members, edge) >= least)
        .min()
}

// The largest end of a member that at least `least` members hold. Two functions, since a chain of each is shorter than
// one function of two closures, for the end and for the better of two.
fn last_deep<S: Side>(side: &S, members: &[u64], least: usize) -> Option<u32>
    ensures { Latest (deep least (map (S.Side.extent side.now) members.now)) (map (λ n. (S.Side.extent side.now n).high) members.now) result }
{
    members
        .iter()
        .map(|&member| side.stretch(member).high)
        .filter(|&edge| depth_at(side, members, edge) >= least)
        .max()
}

// From the first to the last index that at least `least` members hold. Both are ends of members, so
// no other index is looked at.
pub fn deep_run<S: Side>(side: &S, members: &[u64], least: usize) -> Option<Stretch>
    ensures { (b : ℕ) → 0 < least → Below b (map (S.Side.extent side.now) members.now) → result ≡ run (deep least (map (S.Side.extent side.now) members.now)) 0 b }
{
    let low = first_deep(side, members, least)?;
    let high = last_deep(side, members, least)?;
    Some(Stretch { low, high })
}
