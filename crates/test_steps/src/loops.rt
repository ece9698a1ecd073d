// The open loops of a script, one inside the other.
ghost use Rattle.std.specs.Prelude.{◌≡◌};
ghost use Rattle.test_steps.specs.Nested.{opened, turned_loop, turn_of};

// An open loop: the place of its first line, its variable, the turns that are left.
#[derive(Clone, Copy, Default)]
pub struct Loop {
    pub place: u64,
    pub variable: u64,
    pub turns: u64,
}

// The next turn of a loop: the place of its first line, and its variable.
#[derive(Clone, Copy)]
pub struct Turn {
    pub place: u64,
    pub variable: u64,
}

// The open loops, the innermost last, and how many they are.
#[derive(Clone, Copy, Default)]
pub struct Loops {
    pub nested: [Loop; 4],
    pub depth: usize,
}

// One loop more, inside the others; nothing where there is no room for it.
#[tactic(auto, using(std::proofs::lemmas::Bool::Decides::nat_tests), unfolding(crate::specs::Nested::opened))]
pub fn open(loops: &mut Loops, place: u64, variable: u64, turns: u64)
    ensures { loops.new ≡ opened loops.old place variable turns }
{
    if loops.depth < loops.nested.len() {
        loops.nested[loops.depth] = Loop {
            place,
            variable,
            turns,
        };
        loops.depth += 1;
    }
}

// The innermost loop has one turn less, and that is the answer, or it ends; nothing where none is open.
#[tactic(auto, using(std::proofs::lemmas::Bool::Decides::nat_tests), unfolding(crate::specs::Nested::turned_loop, crate::specs::Nested::turn_of))]
pub fn close(loops: &mut Loops) -> Option<Turn>
    ensures { (result ≡ turn_of loops.old) × (loops.new ≡ turned_loop loops.old) }
{
    let last = loops.depth.checked_sub(1)?;
    let innermost = *loops.nested.get(last)?;
    if innermost.turns <= 1 {
        loops.depth = last;
        return None;
    }
    loops.nested[last].turns -= 1;
    Some(Turn {
        place: innermost.place,
        variable: innermost.variable,
    })
}
