// A session from standard input to standard output (R137): it only reads, calls and writes, 64 KiB at a time. Where a read or a write fails it says so and ends (D130).
#![tactic(auto)]

ghost use Rattle.std.specs.Prelude.{◌≡◌, ◌≤◌, length, is_ok, IfOk, IsOk};

use std::env::{Env, FillError};
use std::io::{Error, ErrorKind, Read, Result};

// The number of nodes of the instance (R137).
const NODES: usize = 64;

// The bytes that they need (R20).
const STORAGE: usize = 512 * NODES + 8192;

// How many bytes are read, and how many are written, at a time.
const BUFFER: usize = 65536;

// Where `./run` takes a copy of what is read (D131).
const COPY_FILENO: i32 = 3;

// Whether a read or a write failed since a signal came; it moved nothing then, and is made again.
fn interrupted(e: &Error) -> bool {
    e.kind() == ErrorKind::Interrupted
}

// Says on standard error, in one line, what failed and why. Where that cannot be said, nothing is.
fn say(rt: &HostRuntime, what: &str, why: Error) {
    let _ = eprintln!(rt; "session: {what}: {why}");
}

// One write: what it took of the bytes, none where it was interrupted.
fn write_some(rt: &HostRuntime, bytes: &[u8]) -> Result<usize>
    ensures { IfOk result (λ n. n ≤ length bytes.now) }
{
    match Print::write_some(rt, bytes) {
        Ok(0) => Err(Error::from(ErrorKind::WriteZero)),
        Err(e) if interrupted(&e) => Ok(0),
        took => took,
    }
}

// Writes all of the bytes; where there are none that goes well. A proved loop ends, and nothing says that a write gets on: its turns have a number that no run uses up.
fn write_all(rt: &HostRuntime, bytes: &[u8]) -> Result<()>
    ensures { length bytes.now ≡ 0 → IsOk result }
{
    let mut rest = bytes;
    for _ in 0..u64::MAX {
        if rest.is_empty() {
            return Ok(());
        }
        let n = write_some(rt, rest)?;
        rest = &rest[n..];
    }
    Err(Error::from(ErrorKind::WriteZero))
}

// What a session has: the storage of its instance, the begun line, of which so many bytes are kept, and the output.
#[derive(Drop)]
struct Session {
    storage: [u8; STORAGE],
    carry: [u8; rules::MAX_LINE],
    kept: usize,
    out: [u8; BUFFER],
    ghost kept_bound: { kept ≤ 8193 },
}

impl Session {
    ghost use Rattle.session.specs.Feeding.{FedAll, InputEnds, Turned, Ran};

    // Feeds a whole read, and writes the answers of each feed; a write that fails ends it.
    fn feed_all(&mut self, rt: &HostRuntime, piece: &[u8]) -> Result<()>
        ensures { FedAll BUFFER self.old.storage self.old.carry self.old.kept piece.now (is_ok result) self.new.storage self.new.carry self.new.kept }
    {
        let mut rest = piece;
        while !rest.is_empty() {
            let fed = session_script::feed(
                &mut self.storage,
                &mut self.carry,
                self.kept,
                rest,
                &mut self.out,
            )
            .unwrap();
            self.kept = fed.kept;
            write_all(rt, &self.out[..fed.wrote])?;
            rest = &rest[fed.used..];
        }
        Ok(())
    }

    // The input has ended: the last line's answer is written.
    fn end(&mut self, rt: &HostRuntime) -> Result<()>
        ensures ends { InputEnds self.old.storage self.old.carry self.old.kept self.old.out self.new.storage self.new.out }
        ensures begun { self.new.carry ≡ self.old.carry }
        ensures same { self.new.kept ≡ self.old.kept }
    {
        let wrote = session_script::finish(
            &mut self.storage,
            &self.carry,
            self.kept,
            &mut self.out,
        ).unwrap();
        write_all(rt, &self.out[..wrote])
    }

    // One read, and what it brings; answers whether the session goes on. Where the read fails, what is begun is not run.
    fn turn(&mut self, rt: &HostRuntime, input: &mut [u8], copied: bool) -> bool
        ensures { Turned BUFFER self.old.storage self.old.carry self.old.kept input.new self.old.out result self.new.storage self.new.carry self.new.kept self.new.out }
    {
        let n = match rt.stdin().read(input) {
            Ok(0) => {
                if let Err(e) = self.end(rt) {
                    say(rt, "cannot write", e);
                }
                return false;
            }
            Ok(n) => n,
            Err(e) if interrupted(&e) => return true,
            Err(e) => {
                say(rt, "cannot read", e);
                return false;
            }
        };
        if let Err(e) = self.feed_all(rt, &input[..n]) {
            say(rt, "cannot write", e);
            return false;
        }
        if copied {
            io::write_all(COPY_FILENO, &input[..n]);
        }
        true
    }

    // Reads, with nothing begun, until the input ends, or a read or a write fails. The turns have a number as in `write_all`.
    fn run(&mut self, rt: &HostRuntime, copied: bool)
        ensures { Ran BUFFER self.old.storage self.old.carry 0 self.new.storage self.new.carry }
    {
        self.kept = 0;
        let mut input = [0u8; BUFFER];
        for _ in 0..u64::MAX {
            if !self.turn(rt, &mut input, copied) {
                return;
            }
        }
    }
}

// The instance of a session has no option bits, no mapping, and keeps its nodes (R137). With an argument, what is read is copied.
fn main(rt: HostRuntime) {
    let mut session = Session {
        storage: [0; STORAGE],
        carry: [0; rules::MAX_LINE],
        kept: 0,
        out: [0; BUFFER],
    };
    let id_mapping = id_map::IdMapping {
        internal: 0,
        external: 0,
        range: 0,
    };
    let o = vfs_options::VfsOptions {
        in_opts: 0,
        out_opts: 0,
        id_mapping,
        flags: 0,
    };
    let _ = storage::create(&mut session.storage, NODES, 0, o);
    let copied = match rt.arg(1, &mut []) {
        Err(FillError::NotPresent) => false,
        Ok(_) | Err(FillError::TooLong) => true,
    };
    session.run(&rt, copied);
}
