// Walks a path by the answers on standard input, from empty caches: document 01, "Examples to hold it to". It reads, calls and writes: `script_input::pieces` says what has come,
// `script_input::line_order` what it says and which call is due, and `script_run::stream` reads, makes the call and writes its lines.
#![tactic(auto)]

ghost use Rattle.std.specs.Prelude.{◌≤◌, length};

use script_input::pieces::Came;
use script_lines::lines::{Due, Script};
use std::io::{Stdin, Stdout};
use walk_form::held::Walk;

// The units of a cache of eight places.
const CACHE: usize = 18688;

// The texts of a walk.
const TEXTS: usize = 768;

// A piece of the input.
const PIECE: usize = 4096;

// A line, or a text that it spells.
const LINE: usize = 131072;

// A reply: one byte more than any size asked.
const REPLY: usize = 57345;

// The host of one walk, by the lines of the input: what has come and was read, the walk, and all memory that it lends. Arrays with their counts in `count` and `script`: memory is fixed, no heap.
#[derive(Drop)]
struct Host {
    script: Script,
    walk: Walk,
    came: Came,
    piece: [u16; PIECE],
    // the bytes of the piece
    count: usize,
    line: [u16; LINE],
    refs: [u16; CACHE],
    doms: [u16; CACHE],
    texts: [u16; TEXTS],
    path: [u16; LINE],
    boot: [u16; LINE],
    reply: [u8; REPLY],
    // the piece lies in its memory
    ghost within: { count ≤ length piece },
}

impl Host {
    // Takes up what comes next of the input; answers the call that is due before it is read.
    fn take_up(&mut self, input: &mut Stdin) -> Due {
        let p = script_run::stream::next(
            input,
            &mut self.piece,
            self.count,
            self.came.at,
            self.came.ended,
        );
        self.count = p.count;
        self.came.at = p.at;
        self.came = script_input::pieces::come(&self.piece[..p.count], &mut self.line, self.came);
        script_input::line_order::due_before(
            self.came.input,
            self.script,
            &self.line,
            self.came.held,
        )
    }

    // Reads what has come; answers the call that is due then.
    fn read(&mut self) -> Due {
        self.script = script_input::line_order::take(
            self.came.input,
            self.script,
            &self.line,
            self.came.held,
            &mut self.path,
            &mut self.boot,
            &mut self.reply,
        );
        script_input::line_order::due_after(self.came.input, self.script)
    }

    // Makes the call that is due, and writes what is printed after it.
    fn call(&mut self, output: &mut Stdout, due: Due) {
        let d = script_run::stream::call(
            output,
            due,
            self.script,
            self.walk,
            &mut self.refs,
            &mut self.doms,
            &mut self.texts,
            &self.path,
            &self.boot,
            &self.reply,
        );
        self.script = d.script;
        self.walk = d.walk;
    }
}

fn main(rt: HostRuntime) {
    let mut stdin = rt.stdin();
    let mut stdout = rt.stdout();
    let mut host = Host {
        script: script_lines::lines::begin(),
        walk: dfsc_memory::no_walk(),
        came: script_input::pieces::nothing(),
        piece: [0; PIECE],
        count: 0,
        line: [0; LINE],
        refs: [0; CACHE],
        doms: [0; CACHE],
        texts: [0; TEXTS],
        path: [0; LINE],
        boot: [0; LINE],
        reply: [0; REPLY],
    };
    // nothing says that the input ends
    for _ in 0..u64::MAX {
        if !script_input::line_order::goes_on(host.script) {
            break;
        }
        let due = host.take_up(&mut stdin);
        host.call(&mut stdout, due);
        let due = host.read();
        host.call(&mut stdout, due);
    }
}
