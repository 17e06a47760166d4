// Standard input and output of the program `walk`: a piece of the input read, a call made and its lines written. No contract can say what is read or written.
ghost use Rattle.std.specs.Prelude.{◌≡◌, true, ◌≤◌, length};
ghost use Rattle.laws.specs.Lists.{every, pasted};
ghost use Rattle.script_output.specs.printed.Printed.{is_byte};
ghost use Rattle.script_run.specs.call_due.Calling.{lent_memory, made};
ghost use Rattle.script_run.specs.stream.Stream.{Leaves, NextPiece};

use crate::call_due::Done;
use script_lines::lines::{Due, Script};
use script_output::outcome::PRINTED;
use std::io::{Read, Stdin, Stdout, Write};
use walk_form::held::Walk;

// The bytes of a piece of the input, at most.
const PIECE: usize = 4096;

// Units that are bytes, as bytes.
fn narrow(units: &[u16], bytes: &mut [u8])
    requires { (length units.now ≤ length bytes.old) × (every is_byte units.now ≡ true) }
    ensures { bytes.new ≡ pasted bytes.old 0 units.now }
{
    for (i, unit) in units.iter().enumerate() {
        bytes[i] = *unit as u8;
    }
}

// Writes what a call prints; a write that fails is not noticed.
fn write(output: &mut Stdout, units: &[u16])
    requires { (length units.now ≤ PRINTED) × (every is_byte units.now ≡ true) }
{
    let mut bytes = [0; PRINTED];
    narrow(units, &mut bytes);
    let _ = output.write_all(&bytes[..units.len()]);
}

// Reads a piece of the input, and answers how many bytes came: none at its end, and none where the read fails.
fn read(input: &mut Stdin, units: &mut [u16]) -> usize
    ensures { result ≤ length units.new }
{
    let mut bytes = [0; PIECE];
    let n = input.read(&mut bytes).unwrap_or(0);
    script_lines::line_bytes::widen(&bytes[..n], units)
}

// A piece of the input: its bytes, and where to go on in it.
#[derive(Clone, Copy)]
pub struct Piece {
    pub count: usize,
    pub at: usize,
}

// The next piece, where this one has been used up.
#[tactic(auto, using(crate::proofs::stream::NextLaws::bytes_left, crate::proofs::stream::NextLaws::no_more))]
pub fn next(input: &mut Stdin, units: &mut [u16], count: usize, at: usize, ended: bool) -> Piece
    requires { count ≤ length units.old }
    ensures { NextPiece count at ended units.old units.new result }
{
    if count <= at && !ended {
        Piece {
            count: read(input, units),
            at: 0,
        }
    } else {
        Piece { count, at }
    }
}

// Makes the call that is due, and writes what is printed after it.
pub fn call(
    output: &mut Stdout,
    due: Due,
    s: Script,
    walk: Walk,
    refs: &mut [u16],
    doms: &mut [u16],
    texts: &mut [u16],
    path: &[u16],
    boot: &[u16],
    reply: &[u8],
) -> Done
    ensures { Leaves (made due s (lent_memory walk refs.old doms.old texts.old path.now boot.now reply.now)) result refs.new doms.new texts.new }
{
    let mut out = [0; PRINTED];
    let d = crate::call_due::make(due, s, walk, refs, doms, texts, path, boot, reply, &mut out);
    write(output, &out[..d.bytes]);
    d
}
