ghost use Rattle.std.specs.Prelude.{◌≡◌, ◌≢◌, ◌<◌, ◌≤◌, true, false, [], length, IfOk, OnOk, OnErr};
ghost use Rattle.std.specs.Io.KnownBytes.{Keeps, IsAtEnd};
ghost use Rattle.port_io.specs.Faults.{Rose};
ghost use Rattle.line_cut.specs.Lines.{lines_of};
ghost use Rattle.line_cut.specs.Buffered.{nothing_buffered, pending, has_feed, BeginsLong, CutsLine, CutsAtFeed, IsLongNext, StaysKnown};
ghost use Rattle.line_cut.specs.Steps.{wants_more, still_to_read, CutOutcome};

use crate::limits::LINE_MAX;
use crate::window::Window;
use crate::{Cut, ReadFault};
use plan_base::NoMemory;
use port_io::Source;
use std::alloc::Global;
use std::marker::Model;

/// Cuts a source into lines, one line in each call. Contracts see what is buffered: the bytes taken and not yet cut, the
/// last line that was cut, and whether the source has ended.
#[derive(Drop)]
pub struct Lines {
    window: Window,
    ended: bool,
}

impl Model for Lines {
    ghost use Rattle.line_cut.specs.Buffered.{Buffered};
    ghost use Rattle.line_cut.specs.Window.{line_in, rest_in};

    ghost Value = { Buffered };

    ghost view = { λ l. record { rest = rest_in l.window; line = line_in l.window; ended = l.ended } };
}

impl Lines {
    /// Starts with nothing taken. All the memory that later calls need is allocated here.
    pub fn new(alloc: Global) -> Result<Lines, NoMemory>
        ensures fresh { IfOk result (λ lines. lines ≡ nothing_buffered) }
        ensures limit { LINE_MAX ≡ 1048576 }
    {
        let window = Window::new(alloc)?;
        Ok(Lines {
            window,
            ended: false,
        })
    }

    /// Returns the last line that was cut, without its LF.
    pub fn line(&self) -> &[u8]
        ensures { result.now ≡ self.now.line }
    {
        self.window.line()
    }

    /// Cuts the next line of the source. It reads only while no whole line is buffered, and takes no memory. After
    /// `ReadFault` the bytes that were taken are kept, and the next call continues with them.
    #[tactic(auto, using(crate::proofs::Pending::known_always, crate::proofs::Pending::known_on))]
    pub fn next<S: Source>(&mut self, source: &mut S) -> Result<Cut, ReadFault>
        ensures line { result ≡ Ok Cut.Line
            → CutsLine (pending self.old (S.left source.old)) self.new.line (pending self.new (S.left source.new)) }
        ensures behind { result ≡ Ok Cut.Line → self.new.ended ≡ false
            → CutsAtFeed (pending self.old (S.left source.old)) self.new.line (pending self.new (S.left source.new)) }
        ensures short { result ≡ Ok Cut.Line → length self.new.line ≤ LINE_MAX }
        ensures whole { result ≡ Ok Cut.Line → has_feed self.new.line ≡ false }
        ensures last { result ≢ Ok Cut.Line → self.new.line ≡ self.old.line }
        ensures keeps { result ≢ Ok Cut.Line
            → Keeps (pending self.old (S.left source.old)) (pending self.new (S.left source.new)) }
        ensures none_left { result ≡ Ok Cut.End → IsAtEnd (pending self.old (S.left source.old)) }
        ensures end { result ≡ Ok Cut.End → (self.new.ended ≡ true) × (self.new.rest ≡ []) }
        ensures end_again { self.old.ended ≡ true → self.old.rest ≡ [] → result ≡ Ok Cut.End }
        ensures long { result ≡ Ok Cut.Long → IsLongNext (pending self.new (S.left source.new)) }
        ensures stuck { result ≡ Ok Cut.Long → BeginsLong (lines_of self.new.rest) }
        ensures long_again { BeginsLong (lines_of self.old.rest) → result ≡ Ok Cut.Long }
        ensures no_feed { OnErr result (has_feed self.new.rest ≡ false) }
        ensures open { OnErr result (self.new.ended ≡ false) }
        ensures cause { OnErr result (Rose (S.read_faults source.old) (S.read_faults source.new)) }
        ensures ended { self.old.ended ≡ true → self.new.ended ≡ true }
        ensures at_end { self.old.ended ≡ false → self.new.ended ≡ true → IsAtEnd (S.left source.new) }
        ensures known { StaysKnown (S.left source.old) (S.left source.new) }
        ensures stops { self.old.ended ≡ true → source.new ≡ source.old }
        ensures ready { has_feed self.old.rest ≡ true → source.new ≡ source.old }
        ensures counts { S.read_faults source.old ≤ S.read_faults source.new }
        ensures beside { S.beside_reading source.new ≡ S.beside_reading source.old }
    {
        'reads: while self.wants_more() {
            self.fill(source)?;
        }
        Ok(self.cut())
    }

    #[tactic(auto, unfolding(crate::specs::Steps::wants_more))]
    fn wants_more(&self) -> bool
        ensures { result ≡ wants_more self.now }
    {
        if self.ended {
            return false;
        }
        let buffered = self.window.len();
        self.window.first() == buffered && buffered <= LINE_MAX
    }

    #[tactic(auto, using(crate::proofs::Pending::known_by_read))]
    fn fill<S: Source>(&mut self, source: &mut S) -> Result<(), ReadFault>
        requires wanted { wants_more self.old ≡ true }
        ensures line { self.new.line ≡ self.old.line }
        ensures bytes { Keeps (pending self.old (S.left source.old))
            (pending self.new (S.left source.new)) }
        ensures nearer { OnOk result (still_to_read self.new < still_to_read self.old) }
        ensures fault { OnErr result (self.new ≡ self.old) }
        ensures at_end { self.new.ended ≡ true → IsAtEnd (S.left source.new) }
        ensures known { StaysKnown (S.left source.old) (S.left source.new) }
        ensures cause { OnErr result (Rose (S.read_faults source.old) (S.read_faults source.new)) }
        ensures counts { S.read_faults source.old ≤ S.read_faults source.new }
        ensures beside { S.beside_reading source.new ≡ S.beside_reading source.old }
    {
        self.window.make_room();
        let Ok(count) = self.window.read(source) else {
            return Err(ReadFault);
        };
        self.ended = count == 0;
        Ok(())
    }

    fn cut(&mut self) -> Cut
        requires { wants_more self.old ≡ false }
        ensures { CutOutcome result self.old self.new }
    {
        if self.window.len() == 0 {
            return Cut::End;
        }
        if self.window.first() > LINE_MAX {
            return Cut::Long;
        }
        self.window.cut();
        Cut::Line
    }
}
