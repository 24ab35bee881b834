// Runs a list of calls from the empty backend and writes each answer, a line to each.
//
// The input, from standard input, at most 65,536 bytes: a letter begins a line, and decimal numbers follow, at most
// 256, each behind a blank. Where there is more, the lines that are whole are run, and the last line of the output says
// so.
//   # TEXT                        a comment, written out as it stands
//   b PORT OFFSET BYTE ..         bytes into the port's share of the rings, from this offset on: what a guest writes
//   g PORT FRAME BYTE ..          the port's grant bytes, from this frame on
//   o PORT BYTE ..                open with this sheet
//   c PORT                        close
//   t                             turn
//   T RINGS GRANTS                turn, with buffers lent of these lengths, at most 65536 and 8192
//   f PORT TAG SERIAL RESULT      complete; the result from -2147483647 to 2147483647
//   F RINGS PORT TAG SERIAL RESULT    complete, with a buffer lent of this length, at most 65536
//   l PORT WORD ..                complete a list, whose words are three to an entry: tag, serial, result
//   L RINGS PORT WORD ..          the same, with a buffer lent of this length, at most 65536
//   m PORT                        the port's counters
//   z PORT                        the port's counters zeroed
// In b, g, m and z the port is taken modulo 8.
//
// The output of a call is its name, then `refused NUMBER` or its answer: `done`, `idle`, `overrun`, `started` with the
// plan and, behind a bar each, the extents' frame, first sector, length and disk sector; `answered` with reason and
// status; `done` with the statuses of a list; `notify` where the guest is to be notified. Then each ring byte that the
// call changed, as PLACE:BYTE, its place in the 65,536. Each answer is handed over to the counters of the port that it
// names; they are written as `meter` with the numbers taken, okay, error and not supported.
//
// Only safety is proved here: that each answer is right is proved in `turn`, `completion`, `lists` and `backend`.
#![tactic(auto)]

mod commands;
mod meters;

ghost use Rattle.std.specs.Prelude.{◌≤◌, length};

use crate::commands::{Call, Command};
use crate::meters::{PortCounters, ZERO};
use completion_answers::put_many;
use lines::input::{self, NUMBERS};
use lines::output::{Changes, ListAnswer, Text, TurnAnswer};
use memory::WORDS;
use model::buffer::{GRANTS_BYTES, MANY_WORDS, RINGS_BYTES, TURN_WORDS};
use model::limit::ENTRY_WORDS;
use model::{PortId, Serial, TagId};
use std::io;
use std::io::{Read, Write};

// As much of the input is read.
const TEXT_BYTES: usize = 65536;

// The lower 8 bits of numbers into a buffer, from a place on, as far as there is room.
fn put_bytes(buffer: &mut [u8], place: usize, numbers: &[u64]) {
    for (byte, number) in buffer.iter_mut().skip(place).zip(numbers) {
        *byte = (*number % 256) as u8;
    }
}

// The first bytes of a buffer, at most all.
fn first(buffer: &mut [u8], count: usize) -> &mut [u8] {
    let count = count.min(buffer.len());
    &mut buffer[..count]
}

// The backend's memory, with what the host lends to it and keeps of it.
#[derive(Drop)]
struct Host {
    memory: [u64; WORDS],
    rings: [u8; RINGS_BYTES],
    grants: [u8; GRANTS_BYTES],
    counters: PortCounters,
}

impl Host {
    // With the empty backend.
    fn new() -> Host {
        Host {
            memory: [0; WORDS],
            rings: [0; RINGS_BYTES],
            grants: [0; GRANTS_BYTES],
            counters: PortCounters::new(),
        }
    }

    fn open<W: Write>(&mut self, out: &mut W, port: PortId, sheet: &[u64]) -> io::Result<()> {
        let mut bytes = [0; NUMBERS];
        put_bytes(&mut bytes, 0, sheet);
        let answer = backend::open(&mut self.memory, port, first(&mut bytes, sheet.len()));
        write!(out, "{}", Text(answer))
    }

    fn close<W: Write>(&mut self, out: &mut W, port: PortId) -> io::Result<()> {
        let answer = backend::close(&mut self.memory, port);
        write!(out, "close{}", Text(answer))
    }

    // A turn that is lent the first bytes of the rings and of the grants. The words are filled with ones first, so that
    // a word that is not cleared would show.
    fn turn<W: Write>(&mut self, out: &mut W, rings: usize, grants: usize) -> io::Result<()> {
        let mut words = [1; TURN_WORDS];
        let turned = turn::turn(
            &mut self.memory,
            first(&mut self.rings, rings),
            first(&mut self.grants, grants),
            &mut words,
        );
        let answer = TurnAnswer {
            turned,
            words: &words,
        };
        write!(out, "turn{answer}")?;
        self.counters.after_turn(turned);
        Ok(())
    }

    // A completion that is lent the first bytes of the rings.
    fn complete<W: Write>(
        &mut self,
        out: &mut W,
        rings: usize,
        port: PortId,
        tag: TagId,
        serial: Serial,
        outcome: i32,
    ) -> io::Result<()> {
        let completed = completion::complete(
            &mut self.memory,
            first(&mut self.rings, rings),
            port,
            tag,
            serial,
            outcome,
        );
        write!(out, "complete{}", Text(completed))?;
        self.counters.after_completion(completed);
        Ok(())
    }

    // The same of a list. The words of the answer are filled with ones first, as those of a turn are.
    fn complete_many<W: Write>(
        &mut self,
        out: &mut W,
        rings: usize,
        port: PortId,
        entries: &[u64],
    ) -> io::Result<()> {
        let mut words = [1; MANY_WORDS];
        let completed = lists::complete_many(
            &mut self.memory,
            first(&mut self.rings, rings),
            port,
            entries,
            &mut words,
        );
        let count = entries.len() / ENTRY_WORDS;
        let returned = put_many(&mut words, completed, count);
        let answer = ListAnswer {
            completed,
            words: &words,
            count,
        };
        write!(out, "list{answer}")?;
        self.counters.after_many(port, returned, &words);
        Ok(())
    }

    // Does what a line asks for. What a guest writes, and counters that are zeroed, are not told.
    fn run<W: Write>(&mut self, out: &mut W, command: Command<'_>) -> io::Result<()> {
        match command {
            Command::PutRings(place, numbers) => {
                put_bytes(&mut self.rings, place, numbers);
                Ok(())
            }
            Command::PutGrants(place, numbers) => {
                put_bytes(&mut self.grants, place, numbers);
                Ok(())
            }
            Command::ZeroCounters(port) => {
                *self.counters.of(port) = ZERO;
                Ok(())
            }
            Command::ShowCounters(port) => {
                let counters = *self.counters.of(port);
                writeln!(out, "meter{}", Text(counters))
            }
            Command::Call(call) => self.run_call(out, call),
        }
    }

    // Makes a call, and tells its answer and what it changed. Only here are the rings copied: any other line takes what
    // its own length takes.
    fn run_call<W: Write>(&mut self, out: &mut W, call: Call<'_>) -> io::Result<()> {
        let before = self.rings;
        match call {
            Call::Open(numbers) => {
                write!(out, "open")?;
                if let Some((port, sheet)) = numbers.split_first() {
                    self.open(out, PortId(input::narrow(*port)), sheet)?;
                }
            }
            Call::Close(port) => self.close(out, port)?,
            Call::Turn { rings, grants } => self.turn(out, rings, grants)?,
            Call::Complete {
                rings,
                port,
                tag,
                serial,
                outcome,
            } => self.complete(out, rings, port, tag, serial, outcome)?,
            Call::CompleteMany {
                rings,
                port,
                entries,
            } => self.complete_many(out, rings, port, entries)?,
        }
        let changes = Changes {
            before: &before,
            after: &self.rings,
        };
        writeln!(out, "{changes}")
    }

    // A line that is not empty. A comment is written out as it stands, and one that asks for nothing is answered by an
    // empty line.
    fn run_line<W: Write>(&mut self, out: &mut W, line: &[u8]) -> io::Result<()> {
        if line.starts_with(b"#") {
            out.write_all(line)?;
            return writeln!(out);
        }
        let mut places = [0; NUMBERS];
        let numbers = input::numbers(line, &mut places);
        match Command::parse(line, numbers) {
            Some(command) => self.run(out, command),
            None => writeln!(out),
        }
    }
}

// Every line of the input, from the empty backend; a last one without its end only where the input ends there.
// An empty line says nothing.
fn run<W: Write>(out: &mut W, text: &[u8], is_whole: bool) -> io::Result<()> {
    let mut host = Host::new();
    let mut lines = text.split(|byte| *byte == b'\n');
    if !is_whole {
        let _ = lines.next_back();
    }
    for line in lines.filter(|line| !line.is_empty()) {
        host.run_line(out, line)?;
    }
    Ok(())
}

// Reads until the buffer is full, the input ends or a read fails; returns how many bytes there are.
fn read_full<R: Read>(input: &mut R, buffer: &mut [u8]) -> usize
    ensures { result ≤ length buffer.new }
{
    let mut done = 0;
    while done < buffer.len() {
        let Ok(count) = input.read(&mut buffer[done..]) else {
            break;
        };
        if count == 0 {
            break;
        }
        done += count;
    }
    done
}

fn main(rt: HostRuntime) -> io::Result<()> {
    let mut text = [0u8; TEXT_BYTES];
    let n = read_full(&mut rt.reader(), &mut text);
    let is_whole = n < text.len();
    let mut out = io::writer(&rt);
    run(&mut out, &text[..n], is_whole)?;
    if !is_whole {
        writeln!(out, "cut: no more than 65,536 bytes are read")?;
    }
    Ok(())
}
