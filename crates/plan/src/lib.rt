// The mount walk in two steps: the plan, which only reads the storage, and its application. The nodes to make stand in an array that the caller lends. Each function
// has as its condition a place within a slice, the layout rule, or what its caller has just found or tested.
#![tactic(auto)]

ghost use Rattle.std.specs.Prelude.{false, List, ◌++◌, ◌≡◌, ℕ, ◌+◌, ◌^◌, ◌≤◌, ◌<◌, length};
ghost use Rattle.rules.specs.Path.{too_long};
ghost use Rattle.rules.specs.Tree.{bare, is_child, child_in, parent_in};
ghost use Rattle.path.specs.Steps.{part};
ghost use Rattle.tables.specs.Layout.{capacity_of, count_of, next_of};
ghost use Rattle.tables.specs.View.{nodes_of};
ghost use Rattle.tables.specs.Laid.{Bounds};
ghost use Rattle.plan.specs.Plan.{planned_parent, planned_start, planned_from, Within, room_of, Plans};
ghost use Rattle.plan.specs.Apply.{append_all};

use path::components::{Component, next_component};
use rules::codes::{VfsError, VfsResult};

// A node to make: its parent's number, where its name starts in the path, and how long that is. The first two stand as bytes, so that an array of them has no gaps.
#[derive(Clone, Copy)]
pub struct PlannedNode {
    pub parent: [u8; 8],
    pub start: [u8; 2],
    pub len: u8,
}

// What stands in a plan's array before any node is planned.
pub const UNPLANNED: PlannedNode = PlannedNode {
    parent: [0; 8],
    start: [0; 2],
    len: 0,
};

impl PlannedNode {
    // The node to make under that parent, with that name.
    fn new(parent: u64, start: u16, len: u8) -> PlannedNode
        ensures parent { planned_parent result ≡ parent }
        ensures start { planned_start result ≡ start }
        ensures len { result.len ≡ len }
    {
        PlannedNode {
            parent: parent.to_le_bytes(),
            start: start.to_le_bytes(),
            len,
        }
    }

    // Its parent's number.
    fn parent(self) -> u64
        ensures { result ≡ planned_parent self }
    {
        u64::from_le_bytes(self.parent)
    }

    // Where its name starts in the path.
    fn start(self) -> usize
        ensures { result ≡ planned_start self }
    {
        u16::from_le_bytes(self.start) as usize
    }

    // Its name, a part of the path.
    fn name<'a>(self, path: &'a [u8]) -> &'a [u8]
        requires { planned_start self + self.len ≤ length path.now }
        ensures part { result.now ≡ part path.now (planned_start self) self.len }
        ensures short { length result.now ≤ 255 }
    {
        let start = self.start();
        let end = start + self.len as usize;
        &path[start..end]
    }

    // Whether it is the child of that name (R45).
    fn is_child(self, path: &[u8], here: u64, name: &[u8]) -> bool
        requires { planned_start self + self.len ≤ length path.now }
        ensures { result ≡ is_child here name.now (bare 0 (planned_parent self) (part path.now (planned_start self) self.len)) }
    {
        let len = self.len as usize;
        if self.parent() != here || len != name.len() {
            return false;
        }
        le::runs::same_at(path, self.start(), name, 0, name.len())
    }
}

// The node where the path ends, and how many nodes are to be made.
#[derive(Clone, Copy)]
pub struct Planned {
    pub node: u64,
    pub count: usize,
}

// How many nodes can still be made (R67).
pub fn room(s: &[u8]) -> usize
    requires { Bounds s.now }
    ensures { result ≡ room_of s.now }
{
    let nodes = tables::header::capacity(s) - 1 - tables::header::count(s);
    let numbers = rules::NUMBERS - tables::header::next(s);
    numbers.min(nodes as u64) as usize
}

// The first planned child of that name (R45). What is left is a slice, whose start goes on by one node: a place of 11 times the turn costs more than all else in it.
fn find_planned(
    path: &[u8],
    planned: &[PlannedNode],
    next: u64,
    here: u64,
    name: &[u8],
) -> Option<u64>
    requires count_bound { next + length planned.now < 2 ^ 64 }
    requires within { Within path.now planned.now (length planned.now) }
    ensures { result ≡ child_in (planned_from path.now next planned.now 0 (length planned.now)) here name.now }
{
    let mut rest = planned;
    while let [n, others @ ..] = rest {
        if n.is_child(path, here, name) {
            return Some(next + (planned.len() - rest.len()) as u64);
        }
        rest = others;
    }
    None
}

// The first child of that name, live or planned (R45, R48).
fn find(s: &[u8], path: &[u8], planned: &[PlannedNode], here: u64, name: &[u8]) -> Option<u64>
    requires bounds { Bounds s.now }
    requires count_bound { length planned.now ≤ 1024 }
    requires within { Within path.now planned.now (length planned.now) }
    ensures { result ≡ child_in (nodes_of s.now ++ planned_from path.now (next_of s.now) planned.now 0 (length planned.now)) here name.now }
{
    if let Some(x) = tables::rows::find_child(s, here, name) {
        return Some(x);
    }
    let next = tables::header::next(s);
    find_planned(path, planned, next, here, name)
}

// The parent's number of a node, live or planned, whatever the path is that the planned nodes' names stand in (R39, R54).
fn up(s: &[u8], planned: &[PlannedNode], x: u64) -> u64
    requires bounds { Bounds s.now }
    requires count_bound { length planned.now ≤ 1024 }
    ensures { (path : List ℕ) → result ≡ parent_in (nodes_of s.now ++ planned_from path (next_of s.now) planned.now 0 (length planned.now)) x }
{
    if x == rules::ROOT_ID {
        return rules::ROOT_ID;
    }
    if let Some(i) = tables::rows::find_row(s, x) {
        return tables::rows::parent(s, i);
    }
    let next = tables::header::next(s);
    if next <= x && x - next < planned.len() as u64 {
        return planned[(x - next) as usize].parent();
    }
    rules::ROOT_ID
}

// Which nodes the mount walk makes, and where it ends; exactly where they exceed the room, NOROOM (R48, R50, R67).
pub fn plan_mount(
    s: &[u8],
    path: &[u8],
    nodes: &mut [PlannedNode; rules::MAX_NODES],
) -> VfsResult<Planned>
    requires bounds { Bounds s.now }
    requires path_value { too_long path.now ≡ false }
    ensures { Plans s.now path.now nodes.new result }
{
    let most = room(s);
    let mut count: usize = 0;
    let mut node = rules::ROOT_ID;
    let mut at: usize = 0;
    while let Some(c) = next_component(path, at) {
        match c {
            Component::ParentDir { next, .. } => {
                node = up(s, &nodes[..count], node);
                at = next;
            }
            Component::Normal { start, len, next } => {
                let name = &path[start..next];
                if let Some(x) = find(s, path, &nodes[..count], node, name) {
                    node = x;
                } else if count == most {
                    return Err(VfsError::NoRoom);
                } else {
                    nodes[count] = PlannedNode::new(node, start as u16, len as u8);
                    node = tables::header::next(s) + count as u64;
                    count += 1;
                }
                at = next;
            }
        }
    }
    Ok(Planned { node, count })
}

// The planned nodes are made, in their order, at the end of the table (R48).
pub fn apply_plan(s: &mut [u8], path: &[u8], planned: &[PlannedNode])
    requires bounds { Bounds s.old }
    requires count_bound { (count_of s.old + length planned.now < capacity_of s.old) × (next_of s.old + length planned.now ≤ 2 ^ 56) }
    requires within { Within path.now planned.now (length planned.now) }
    ensures { s.new ≡ append_all (planned_from path.now (next_of s.old) planned.now 0 (length planned.now)) s.old }
{
    for n in planned {
        tables::rows::append(s, n.parent(), n.name(path));
    }
}
