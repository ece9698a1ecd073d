// A session as a stream: pieces of input in, answer lines out, on an instance and a begun line in lent bytes.
#![tactic(auto)]

ghost use Rattle.std.specs.Prelude.{◌≡◌, ◌≤◌, false, length, MatchResult};
ghost use Rattle.rules.specs.Whole.{line_end};
ghost use Rattle.decimal.specs.Text.{HasRoom};
ghost use Rattle.session_script.specs.Step.{Ended};
ghost use Rattle.session_script.specs.Feed.{accepts, Feeds, Finishes};

use decimal::inner::Text;
use rules::codes::{VfsError, VfsResult};

// What a feed answers: how many bytes of the piece it used, how many it wrote, and how many of a begun line it keeps.
#[derive(Clone, Copy)]
pub struct Fed {
    pub used: usize,
    pub wrote: usize,
    pub kept: usize,
}

// The begun line: its bytes at the front of the carry, and how many there are; more than 8,192 say that it is over the limit (R150).
#[derive(Drop)]
struct BegunLine<'a> {
    carry: &'a mut [u8],
    kept: usize,
}

// Says of a begun line that it is over the limit already (R150).
const OVER: usize = rules::MAX_LINE + 1;

// The room in the output that one more line asks for; an answer with its line end has at most 46 bytes (D85).
const ROOM: usize = 64;

// The byte that ends a line (R151).
const LINE_END: u8 = 10;

// The begun line is at its end: it is answered, `?` where it is over the limit, with a line end behind it (R137, R150, R151).
fn end_line(s: &mut [u8], carry: &[u8], kept: usize, text: &mut Text)
    requires in_bounds { 8192 ≤ length carry.now }
    requires room { HasRoom text.old 64 }
    ensures { Ended s.old carry.now kept text.old text.new s.new }
{
    if rules::MAX_LINE < kept {
        session_text::put_question(text);
    } else {
        session_line::answer(s, &carry[..kept], text);
    }
    text.put_byte(LINE_END);
}

impl BegunLine<'_> {
    ghost use Rattle.session_script.specs.Step.{Joined, Took};

    // Bytes with no line end among them join it, as many as the limit lets (R150, R151).
    fn join(&mut self, bytes: &[u8])
        requires in_bounds { 8192 ≤ length self.old.carry.now }
        requires kept_bound { self.old.kept ≤ 8193 }
        ensures same_carry { self.new.carry.ghost_name ≡ self.old.carry.ghost_name }
        ensures joined { Joined self.old.carry.now self.old.kept bytes.now self.new.carry.now self.new.kept }
    {
        let at = self.kept.min(rules::MAX_LINE);
        let fit = bytes.len().min(rules::MAX_LINE - at);
        le::runs::copy_at(self.carry, at, &bytes[..fit]);
        self.kept = (self.kept + bytes.len()).min(OVER);
    }

    // A line end ends it: it is answered, and the next one is begun (R137, R150, R151).
    fn end(&mut self, s: &mut [u8], text: &mut Text)
        requires in_bounds { 8192 ≤ length self.old.carry.now }
        requires room { HasRoom text.old 64 }
        ensures same_carry { self.new.carry.ghost_name ≡ self.old.carry.ghost_name }
        ensures took { Took s.old self.old.carry.now self.old.kept line_end text.old text.new s.new self.new.carry.now self.new.kept }
    {
        let carry = &mut *self.carry;
        end_line(s, carry, self.kept, text);
        self.kept = 0;
    }
}

// Whether a begun line can stand so: the carry has room for a line, and no more is kept than says that it is over the limit; else SMALL (R15, R150).
#[tactic(auto, using(crate::proofs::Carry::accepts_short, crate::proofs::Carry::accepts_many))]
fn check_begun(carry: &[u8], kept: usize) -> VfsResult<()>
    ensures { MatchResult result (λ _. (8192 ≤ length carry.now) × (kept ≤ 8193))
        (λ e. (e ≡ VfsError.Small) × (accepts carry.now kept ≡ false)) }
{
    if carry.len() < rules::MAX_LINE || OVER < kept {
        return Err(VfsError::Small);
    }
    Ok(())
}

// Takes the bytes of a piece, in their order, until they are used up or the output has room for no more line; every line that ends is answered (R137, R150, R151).
pub fn feed(
    s: &mut [u8],
    carry: &mut [u8],
    kept: usize,
    piece: &[u8],
    out: &mut [u8],
) -> VfsResult<Fed>
    ensures { Feeds s.old carry.old kept piece.now out.old result s.new carry.new out.new }
{
    check_begun(carry, kept)?;
    let mut line = BegunLine { carry, kept };
    let mut text = Text { out, at: 0 };
    let mut used = 0;
    while used < piece.len() && ROOM <= text.room() {
        if piece[used] == LINE_END {
            line.end(s, &mut text);
            used += 1;
        } else {
            let end = path::components::part_end(piece, used, LINE_END);
            line.join(&piece[used..end]);
            used = end;
        }
    }
    Ok(Fed {
        used,
        wrote: text.at,
        kept: line.kept,
    })
}

// The input has ended: the begun line is the last one, if it has a byte (R151).
pub fn finish(s: &mut [u8], carry: &[u8], kept: usize, out: &mut [u8]) -> VfsResult<usize>
    ensures { Finishes s.old carry.now kept out.old result s.new out.new }
{
    check_begun(carry, kept)?;
    if out.len() < ROOM {
        return Err(VfsError::Small);
    }
    if kept == 0 {
        return Ok(0);
    }
    let mut text = Text { out, at: 0 };
    end_line(s, carry, kept, &mut text);
    Ok(text.at)
}
