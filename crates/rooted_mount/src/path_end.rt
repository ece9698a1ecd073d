// Where the path of a mount ends, with the nodes that it lacks.
ghost use Rattle.std.specs.Prelude.{◌≡◌, true, false, MatchResult};
ghost use Rattle.rules.specs.declared.codes.VfsError.TheVariants.{NoRoom};
ghost use Rattle.rules.specs.Path.{too_long};
ghost use Rattle.rules.specs.Mount.{no_room};
ghost use Rattle.tables.specs.Laid.{laid};
ghost use Rattle.tables.specs.View.{view};
ghost use Rattle.rooted_mount.specs.PathEnds.{Lacks};

use plan::{PlannedNode, plan_mount};
use rules::codes::VfsResult;

// The nodes that a path lacks, and the node where it ends.
#[derive(Clone, Copy)]
pub struct PathEnd<'a> {
    pub lacking: &'a [PlannedNode],
    pub node: u64,
}

// The nodes that the path lacks are planned, into the array that is lent; or NOROOM (R48, R67, R71).
pub fn plan_end<'a>(
    s: &[u8],
    path: &[u8],
    nodes: &'a mut [PlannedNode; rules::MAX_NODES],
) -> VfsResult<PathEnd<'a>>
    requires s_value { laid s.now ≡ true }
    requires path_value { too_long path.now ≡ false }
    ensures { MatchResult result (λ e. Lacks s.now path.now e.lacking.now e.node)
        (λ e. (e ≡ NoRoom) × (no_room (view s.now) path.now ≡ true)) }
{
    let planned = plan_mount(s, path, nodes)?;
    Ok(PathEnd {
        lacking: &nodes[..planned.count],
        node: planned.node,
    })
}
