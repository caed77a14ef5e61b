//! A gateway that is played a script, line by line.
ghost use Rattle.std.specs.Prelude.{◌≡◌, ◌≢◌, [], ◌∷◌, Some, None, IfOk, OnOk, OnErr};
ghost use Rattle.std.specs.Io.KnownBytes.{Keeps};
ghost use Rattle.mqtt_frames.specs.Streams.{Reading};
ghost use Rattle.sng_gateway.specs.Deeds.{Step, fault_deeds, packet_deeds};
ghost use Rattle.sng_script.specs.Lines.{line_of};
ghost use Rattle.sng_gateway.specs.Playing.{Adds, Comes, IsPlayed};
ghost use Rattle.sng_history.specs.Books.{IsBook};
ghost use Rattle.sng_history.specs.State.{opening};

use crate::broker::{arrival, begin_stream, push_fault_line};
use mqtt_frames::{Packet, Stream, StreamFault};
use sng_book::{Event, push_row};
use sng_core::Core;
use sng_script::refused::push_refused;
use sng_script::{Line, Obstacle, line_of};
use std::alloc::{AllocError, Global};
use std::io::Write;

/// A gateway, how many rows it made, and the stream of the broker's bytes.
#[derive(Drop)]
pub struct Player {
    alloc: Global,
    core: Core,
    stream: Stream,
    rows: u64,
    text: Vec<u8>,
}

impl Player {
    ghost use Rattle.sng_gateway.specs.Standings.{standing};

    /// A gateway that grants nothing, no row, and a stream of which nothing has come.
    pub fn new(alloc: Global) -> Result<Player, AllocError>
        ensures state { IfOk result (λ player. IsBook opening [] (standing player).state) }
        ensures rows { IfOk result (λ player. (standing player).rows ≡ 0) }
        ensures stream { IfOk result (λ player. (standing player).stream ≡ Reading []) }
    {
        Ok(Player {
            alloc,
            core: Core::new(alloc)?,
            stream: Stream::new(alloc),
            rows: 0,
            text: Vec::new(alloc),
        })
    }

    /// How many rows it made.
    pub fn rows(&self) -> u64
        ensures { result ≡ (standing self.now).rows }
    {
        self.rows
    }

    /// Plays one line, without its line feed, and prints what comes of it. That goes out once it is whole:
    /// where an allocation fails between two packets of the line, nothing of it is printed. Steps may have
    /// been taken then, so the player is not to be played on. A line that cannot be read prints nothing and
    /// changes nothing. `Failed` is a failure of the output, or a row past the last number of 64 bits.
    pub fn play<W: Write>(&mut self, line: &[u8], output: &mut W) -> Result<(), Obstacle>
        ensures ok { OnOk result (IsPlayed (standing self.old) line.now (W.contents output.old)
            (W.contents output.new) (standing self.new)) }
        ensures unreadable { result ≡ Err Obstacle.Unreadable
            → (line_of line.now ≡ None) × (standing self.new ≡ standing self.old) }
        ensures told { line_of line.now ≡ None → result ≡ Err Obstacle.Unreadable }
        ensures nothing_written { OnErr result (result ≢ Err Obstacle.Failed
            → Keeps (W.contents output.old) (W.contents output.new)) }
    {
        let line = line_of(self.alloc, line)?;
        self.take(line)?;
        output
            .write_all(self.text.as_slice())
            .map_err(|_| Obstacle::Failed)
    }

    /// Does what a line says, and leaves what is to be printed of it in `text`. It is `Failed` where the row
    /// with the last number of 64 bits is made and one more would follow, as in the functions below.
    #[inline(always)]
    fn take(&mut self, line: Line) -> Result<(), Obstacle>
        ensures ok { OnOk result (Comes (standing self.old) line self.new.text.items (standing self.new)) }
        ensures full { result ≡ Err Obstacle.Failed → self.new.rows ≡ u64.MAX }
        ensures err { result ≢ Err Obstacle.Unreadable }
    {
        self.text.clear();
        match line {
            Line::Empty => Ok(()),
            Line::Event(event) => {
                begin_stream(self.alloc, &mut self.stream, &event);
                self.step(event)
            }
            Line::Refused(fault) => {
                push_refused(&mut self.text, fault)?;
                Ok(())
            }
            Line::Broker(piece) => self.take_piece(piece.as_slice()),
        }
    }

    /// Takes a piece of the broker's bytes: a step for each packet that is whole with it, and what comes of
    /// the fault behind them.
    #[inline(never)]
    fn take_piece(&mut self, piece: &[u8]) -> Result<(), Obstacle>
        requires { self.old.text.items ≡ [] }
        ensures ok { OnOk result (Comes (standing self.old) (Line.Broker piece.now) self.new.text.items
            (standing self.new)) }
        ensures full { result ≡ Err Obstacle.Failed → self.new.rows ≡ u64.MAX }
        ensures err { result ≢ Err Obstacle.Unreadable }
    {
        let (packets, fault) = arrival(self.alloc, &mut self.stream, piece)?;
        self.step_each(packets)?;
        match fault {
            None => Ok(()),
            Some(fault) => self.lose(fault),
        }
    }

    /// Takes a step for each packet, in order.
    fn step_each(&mut self, packets: Vec<Packet>) -> Result<(), Obstacle>
        ensures ok { OnOk result (Adds (standing self.old) (packet_deeds packets.items)
            self.old.text.items self.new.text.items (standing self.new)) }
        ensures full { result ≡ Err Obstacle.Failed → self.new.rows ≡ u64.MAX }
        ensures err { result ≢ Err Obstacle.Unreadable }
    {
        for packet in packets {
            self.step(Event::Broker(packet))?;
        }
        Ok(())
    }

    /// Tells of a fault of the broker's bytes, with which the connection is lost.
    #[cold]
    #[inline(never)]
    fn lose(&mut self, fault: StreamFault) -> Result<(), Obstacle>
        ensures ok { OnOk result (Adds (standing self.old) (fault_deeds (Some fault))
            self.old.text.items self.new.text.items (standing self.new)) }
        ensures full { result ≡ Err Obstacle.Failed → self.new.rows ≡ u64.MAX }
        ensures err { result ≢ Err Obstacle.Unreadable }
    {
        push_fault_line(&mut self.text, fault)?;
        self.step(Event::Down)
    }

    /// Takes one step, and adds its row to `text`.
    #[inline(always)]
    fn step(&mut self, event: Event) -> Result<(), Obstacle>
        ensures ok { OnOk result (Adds (standing self.old) (Step event ∷ [])
            self.old.text.items self.new.text.items (standing self.new)) }
        ensures full { result ≡ Err Obstacle.Failed → self.new.rows ≡ u64.MAX }
        ensures err { result ≢ Err Obstacle.Unreadable }
    {
        if self.rows == u64::MAX {
            return Err(Obstacle::Failed);
        }
        let kind = event.kind();
        let outs = self.core.step(self.alloc, event)?;
        self.rows += 1;
        push_row(&mut self.text, self.rows, 0, kind, outs.as_slice())?;
        self.core.reuse(outs);
        Ok(())
    }
}
